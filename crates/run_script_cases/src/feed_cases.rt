// The kind `feed`, whose lines keep totals. A line's first byte says what is done: 0 feeds the text that follows; 1 feeds it with a scratch
// that is a word short, 2 with a sheet of 8 bytes; 3 empties the totals; 4 sets a word, its number in one byte and its value in four;
// 5 writes the totals, 6 the two means. tools/feed_cases.py makes the cases.
ghost use Rattle.std.specs.Prelude.{◌≤◌};

use error::{FeedAnswer, MeanAnswer};
use parser::SCRATCH_WORDS;
use run_stored::answers::{Checked, Refused};
use run_stored::cases::Case;
use std::io;
use std::io::Write;

pub type Totals = [u32; 60];

pub const NO_TOTALS: Totals = [0; 60];

const LESS_SCRATCH_WORDS: usize = SCRATCH_WORDS - 1;

// The longest sheet of a script.
const SHEET_BYTES: usize = 49152;

enum Task {
    Feed,
    FeedWithLessScratch,
    FeedWithLessSheet,
    Empty,
    SetWord,
    SayTotals,
    SayMeans,
}

impl From<u8> for Task {
    fn from(first: u8) -> Task {
        match first {
            0 => Task::Feed,
            1 => Task::FeedWithLessScratch,
            2 => Task::FeedWithLessSheet,
            3 => Task::Empty,
            4 => Task::SetWord,
            5 => Task::SayTotals,
            _ => Task::SayMeans,
        }
    }
}

pub fn answer(to: &mut impl Write, case: &Case<'_>, totals: &mut Totals) -> io::Result<()> {
    let (first, rest) = case.field(0).split_first().unwrap_or((&0, &[]));
    match Task::from(*first) {
        Task::Feed => feed::<SCRATCH_WORDS, SHEET_BYTES>(to, totals, rest),
        Task::FeedWithLessScratch => feed::<LESS_SCRATCH_WORDS, SHEET_BYTES>(to, totals, rest),
        Task::FeedWithLessSheet => feed::<SCRATCH_WORDS, 8>(to, totals, rest),
        Task::Empty => {
            totals.fill(0);
            Ok(())
        }
        Task::SetWord => {
            set_word(totals, rest);
            Ok(())
        }
        Task::SayTotals => say_totals(to, totals),
        Task::SayMeans => {
            say_mean(to, totals, 0)?;
            say_mean(to, totals, 1)
        }
    }
}

// Feeds a text with so many words of scratch and bytes of a sheet, and writes the answer.
fn feed<const WORDS: usize, const BYTES: usize>(
    to: &mut impl Write,
    totals: &mut Totals,
    text: &[u8],
) -> io::Result<()>
    requires words { WORDS ≤ 64 }
    requires bytes { BYTES ≤ 49152 }
{
    let mut scratch = [0u16; WORDS];
    let mut sheet = [0u8; BYTES];
    match feed::feed(totals, text, &mut scratch, &mut sheet, 1) {
        FeedAnswer::Counted { answer } => writeln!(to, "{}", Checked(answer)),
        FeedAnswer::Refused { refusal, place } => {
            writeln!(to, "unfed {}", Refused { refusal, place })
        }
    }
}

// The word's number in the first byte, its value in the next four, the highest first. What is missing or too high is 0.
fn set_word(totals: &mut Totals, bytes: &[u8]) {
    let (word, value) = bytes.split_first().unwrap_or((&0, &[]));
    let word = usize::from(*word);
    let value = value
        .first_chunk()
        .map_or(0, |bytes| u32::from_be_bytes(*bytes));
    totals[if word < totals.len() { word } else { 0 }] = value;
}

fn say_totals(to: &mut impl Write, totals: &Totals) -> io::Result<()> {
    for total in totals {
        write!(to, "{total} ")?;
    }
    writeln!(to)
}

fn say_mean(to: &mut impl Write, totals: &Totals, which: u32) -> io::Result<()> {
    match totals::mean(totals, which) {
        MeanAnswer::Fraction {
            numerator,
            denominator,
        } => writeln!(to, "{numerator}/{denominator}"),
        MeanAnswer::Nothing => writeln!(to, "none"),
        MeanAnswer::Refused { refusal, place } => writeln!(to, "{}", Refused { refusal, place }),
    }
}
