// The kinds `script`, `number` and `rounded`, whose lines are texts. The answer of the first two is what reading answers, its sheet, and
// what checking answers to that (oracle/store-scripts.sh, tools/number_cases.py); of `rounded` how many of its numbers were rounded, or
// `refused` (tools/rounded_cases.py).
use error::ReadAnswer;
use run_stored::answers::{Checked, Refused};
use run_stored::cases::Case;
use std::alloc::Global;
use std::io;
use std::io::Write;
use verdict::Verdict;

// The longest sheet of a script.
const SHEET_BYTES: usize = 49152;

pub fn answer(alloc: Global, to: &mut impl Write, case: &Case<'_>) -> io::Result<()> {
    let mut scratch = [0u16; parser::SCRATCH_WORDS];
    let mut sheet = [0u8; SHEET_BYTES];
    match verdict::read_and_check(case.field(0), &mut scratch, &mut sheet, 1) {
        Verdict::Unread { refusal, place } => writeln!(to, "{}", Refused { refusal, place }),
        Verdict::Checked {
            length,
            records,
            rounded: _,
            answer,
        } => {
            let sheet = hex::encode_upper(alloc, &sheet[..length.min(sheet.len())])?;
            let answer = Checked(answer);
            writeln!(to, "accept {records} {sheet}\t{answer}")
        }
    }
}

pub fn answer_rounded(to: &mut impl Write, case: &Case<'_>) -> io::Result<()> {
    let mut scratch = [0u16; parser::SCRATCH_WORDS];
    let mut sheet = [0u8; SHEET_BYTES];
    match parser::read(case.field(0), &mut scratch, &mut sheet) {
        ReadAnswer::Accepted {
            length: _,
            records: _,
            rounded,
        } => writeln!(to, "{rounded}"),
        ReadAnswer::Refused {
            refusal: _,
            place: _,
        } => writeln!(to, "refused"),
    }
}
