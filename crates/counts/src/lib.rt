// Counting a script in the totals of a morning sheet: whether there is room for one, its records, or its refusal. For our own crates.
#![tactic(auto)]

ghost use Rattle.std.specs.Prelude.{◌≡◌, length};
ghost use Rattle.error.specs.declared.CheckAnswer.TheVariants as check;
ghost use Rattle.error.specs.declared.FeedAnswer.TheVariants as answers;
ghost use Rattle.totals.specs.Totals.{added};
ghost use Rattle.sheet.specs.Sheet.{decode};
ghost use Rattle.feeding.specs.Feed.{nodes_in, full as Feed·full};
ghost use Rattle.feeding.specs.Means.{Words, IsSheet, nodes_add, judged_add};

use error::{CheckAnswer, FeedAnswer, Refusal};
use sheet_decode::fields::take_field;
use sheet_records::take_record;

pub const SCRIPT_LIMIT: u64 = 4096;

// The words of totals that count scripts.
pub const NUMBER_WORDS: usize = 44;

// Whether no script may be fed: a figure is above the limit, or 4,096 scripts are counted.
pub fn full(totals: &[u32]) -> bool
    requires { length totals.now ≡ 60 }
    ensures { result ≡ Feed·full totals.now }
{
    if totals::over_limit(totals) {
        return true;
    }
    SCRIPT_LIMIT <= totals::sum(totals, 0, NUMBER_WORDS)
}

// Counts the records of a sheet: each node's kind, and the entries of the tracks. The sheet is walked once.
pub fn count_records(totals: &mut [u32], sheet: &[u8], text_len: usize)
    requires words { Words totals.old }
    requires sheet { IsSheet text_len sheet.now }
    ensures { totals.new ≡ added (nodes_add (nodes_in (decode text_len sheet.now))) totals.old }
{
    let head = take_field(sheet, 0, 2);
    let mut end = head.next;
    while end < sheet.len() {
        let r = take_record(sheet, end, text_len);
        end = r.next;
        totals::add(totals, totals::FIRST_KIND_WORD + r.kind as usize, 1);
        totals::add(totals, totals::ENTRIES_WORD, r.entries as u32);
    }
}

// Counts a refused script, and gives the answer.
pub fn count_refused(totals: &mut [u32], refusal: Refusal, place: usize) -> FeedAnswer
    requires { Words totals.old }
    ensures totals_after { totals.new ≡ judged_add (check.Refused refusal place) totals.old }
    ensures value { result ≡ answers.Counted (check.Refused refusal place) }
{
    totals::add(totals, error::number_of(refusal) as usize, 1);
    FeedAnswer::Counted {
        answer: CheckAnswer::Refused { refusal, place },
    }
}
