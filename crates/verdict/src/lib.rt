// Reading a script and checking its sheet, one call after the other.
#![tactic(auto)]

ghost use Rattle.std.specs.Prelude.{◌≡◌, length};
ghost use Rattle.reading.specs.Reading.{reading, outcome};
ghost use Rattle.verdict.specs.Verdict.{read_of, both_answers, verdict_values, Answered, Claims};

use error::{CheckAnswer, ReadAnswer, Refusal};

// What the two calls answered.
#[derive(Clone, Copy)]
pub enum Verdict {
    // Reading refused, and checking was not called.
    Unread {
        refusal: Refusal,
        place: usize,
    },
    // Reading gave the sheet's length, its count of node records and that of the rounded numbers, and checking this answer.
    Checked {
        length: usize,
        records: usize,
        rounded: usize,
        answer: CheckAnswer,
    },
}

// Reads a text into a sheet, and checks the sheet up to the length that reading gave, under a list of colours.
pub fn read_and_check(text: &[u8], scratch: &mut [u16], sheet: &mut [u8], list: u32) -> Verdict
    ensures sheet_after { outcome (read_of result) scratch.new sheet.new ≡ reading text.now scratch.old sheet.old }
    ensures answered { Answered list text.now sheet.new result }
    ensures claims { Claims list text.now (length scratch.old) (length sheet.old) sheet.new result }
    ensures values { verdict_values result ≡ verdict_values (both_answers list text.now (reading text.now scratch.old sheet.old)) }
{
    match parser::read(text, scratch, sheet) {
        ReadAnswer::Refused { refusal, place } => Verdict::Unread { refusal, place },
        ReadAnswer::Accepted {
            length,
            records,
            rounded,
        } => {
            let answer = validate::check(text, text::part(sheet, 0, length), list);
            Verdict::Checked {
                length,
                records,
                rounded,
                answer,
            }
        }
    }
}
