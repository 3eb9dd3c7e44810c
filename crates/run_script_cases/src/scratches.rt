// The kind `scratch`: a line is a number of words in two bytes and a text, which is read with a scratch of so many words, each 7 when it is
// lent, and a sheet of 64 bytes, each 9. The answer is reading's; then what the scratch is afterwards, `zero`, `kept` or `mixed`; then the
// same of the sheet behind its length. tools/scratch_cases.py makes the cases.
use error::ReadAnswer;
use run_stored::answers::Refused;
use run_stored::cases::Case;
use std::alloc::Global;
use std::io;
use std::io::Write;

// The longest scratch that is lent. A longer one has no answer.
const ROOM: usize = 16384;

pub fn answer(alloc: Global, to: &mut impl Write, case: &Case<'_>) -> io::Result<()> {
    let words = case
        .field(0)
        .first_chunk()
        .map_or(0, |bytes| u16::from_be_bytes(*bytes));
    let words = usize::from(words);
    if words <= ROOM {
        read_with(alloc, to, words, case.field(1))?;
    }
    writeln!(to)
}

fn read_with(alloc: Global, to: &mut impl Write, words: usize, text: &[u8]) -> io::Result<()> {
    let mut scratch = vec![in alloc; 7u16; words]?;
    let mut sheet = [9u8; 64];
    let used = match parser::read(text, &mut scratch, &mut sheet) {
        ReadAnswer::Accepted {
            length,
            records,
            rounded: _,
        } => {
            write!(to, "accept {length} {records}")?;
            length
        }
        ReadAnswer::Refused { refusal, place } => {
            write!(to, "{}", Refused { refusal, place })?;
            0
        }
    };
    let rest = &sheet[used.min(sheet.len())..];
    let scratch = state_of(&scratch, 0, 7);
    let rest = state_of(rest, 0, 9);
    write!(to, "\t{scratch}\t{rest}")
}

// What has become of words or bytes that were each `lent`.
fn state_of<T: Copy + PartialEq>(items: &[T], zero: T, lent: T) -> &'static str {
    if items.iter().all(|item| *item == zero) {
        "zero"
    } else if items.iter().all(|item| *item == lent) {
        "kept"
    } else {
        "mixed"
    }
}
