// What the program prints, on a page that is lent: the lines of all records, then `accept N`; or `refuse R at P`.
#![tactic(auto)]

ghost use Rattle.std.specs.Prelude.{◌≡◌};
ghost use Rattle.error.specs.Answer.{line_values};
ghost use Rattle.script.specs.Output.{printing};

use error::{CheckAnswer, LineAnswer, Refusal};
use verdict::Verdict;

// The program's buffers: the sheet that it gives reading, and a page that is long enough for every text.
pub const SHEET_BYTES: usize = 49152;

pub const PAGE_BYTES: usize = 147456;

// Reads a text, checks it under a list of colours, and writes at the front of the page all that the program prints for it. Gives its
// length; or, for a page of fewer than PAGE_BYTES, a refusal.
pub fn print(
    text: &[u8],
    scratch: &mut [u16],
    sheet: &mut [u8],
    page: &mut [u8],
    list: u32,
) -> LineAnswer
    ensures page_after { (result, scratch.new, sheet.new, page.new) ≡ printing list text.now scratch.old sheet.old page.old }
    ensures values { line_values result ≡ line_values (printing list text.now scratch.old sheet.old page.old).0 }
{
    if page.len() < PAGE_BYTES {
        return LineAnswer::Refused {
            refusal: Refusal::OutputTooShort,
            place: 0,
        };
    }
    match verdict::read_and_check(text, scratch, sheet, list) {
        Verdict::Unread { refusal, place } => LineAnswer::Accepted {
            length: page::put_refusal(page, 0, refusal, place),
        },
        Verdict::Checked {
            length,
            records,
            rounded: _,
            answer,
        } => match answer {
            CheckAnswer::Refused { refusal, place } => LineAnswer::Accepted {
                length: page::put_refusal(page, 0, refusal, place),
            },
            CheckAnswer::Accepted => LineAnswer::Accepted {
                length: page::put_lines(text::part(sheet, 0, length), text.len(), records, page),
            },
        },
    }
}
