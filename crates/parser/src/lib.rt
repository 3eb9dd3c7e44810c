// parser.rs: reading a text into a sheet.
#![tactic(auto)]

ghost use Rattle.std.specs.Prelude.{false, ◌≡◌, ◌≤◌, length};
ghost use Rattle.text.specs.Limits.{text_limit};
ghost use Rattle.token.specs.Means.{split_outcome, splitting};
ghost use Rattle.error.specs.Answer.{read_values};
ghost use Rattle.reading.specs.Reading.{reading, outcome};
ghost use Rattle.parser.specs.Means.{input_of, Allowed, InputMeans, settled};

use error::{ReadAnswer, Refusal};
use read_blocks::ParsedNodes;
use read_cursor::Left;
use token::SplitAnswer;

// The words that reading asks of a scratch.
pub const SCRATCH_WORDS: usize = 64;

// What the grammar says of a text, and whether it accepted it to its end, with nothing left in a group.
#[derive(Clone, Copy)]
struct Input {
    answer: ReadAnswer,
    whole: bool,
}

fn refused(refusal: Refusal, place: usize) -> Input
    ensures { result ≡ input_of (ReadAnswer.Refused refusal place) false }
{
    let answer = ReadAnswer::Refused { refusal, place };
    Input {
        answer,
        whole: false,
    }
}

// `AnimatoInput`: the nodes of a whole text, written behind their count.
fn parse_input(text: &[u8], sheet: &mut [u8]) -> Input
    requires { length text.now ≤ text_limit }
    ensures { InputMeans text.now sheet.old sheet.new result }
{
    let c = read_cursor::first(text);
    match read_blocks::parse_nodes(text, sheet, c, 2, 16) {
        ParsedNodes::Refused(refusal, place) => refused(refusal, place),
        ParsedNodes::Is(nodes) => {
            let m = nodes.next;
            match read_cursor::leftover(m) {
                Left::At(place) => refused(Refusal::Leftover, place),
                Left::Nothing => {
                    sheet_encode::patch_count(sheet, 0, nodes.width);
                    let answer = ReadAnswer::Accepted {
                        length: nodes.end,
                        records: nodes.records,
                        rounded: read_cursor::rounded(m),
                    };
                    let whole = read_cursor::place(m) == text.len();
                    Input { answer, whole }
                }
            }
        }
    }
}

// Judges a text by the text rules. What the grammar takes to the text's end, each group left by its closer, they allow. `split`, which cuts
// the text a second time, is asked of any other.
fn judge(text: &[u8], scratch: &mut [u16], whole: bool) -> SplitAnswer
    requires { (length text.now ≤ text_limit) × (64 ≤ length scratch.old) × Allowed text.now whole }
    ensures { split_outcome result scratch.new ≡ splitting text.now scratch.old }
{
    if whole {
        token::clear(scratch);
        return SplitAnswer::Accepted;
    }
    token::split(text, scratch)
}

// The last refusal, of a sheet too short for the encoding; and zeros behind the encoding, or everywhere on a refusal.
fn settle(sheet: &mut [u8], answer: ReadAnswer) -> ReadAnswer
    ensures { (result, sheet.new) ≡ settled answer sheet.old }
{
    match answer {
        ReadAnswer::Refused { refusal, place } => {
            sheet_encode::clear(sheet, 0);
            ReadAnswer::Refused { refusal, place }
        }
        ReadAnswer::Accepted {
            length,
            records,
            rounded,
        } => {
            if sheet.len() < length {
                sheet_encode::clear(sheet, 0);
                return ReadAnswer::Refused {
                    refusal: Refusal::SheetTooShort,
                    place: 0,
                };
            }
            sheet_encode::clear(sheet, length);
            ReadAnswer::Accepted {
                length,
                records,
                rounded,
            }
        }
    }
}

// Reads a text into a sheet: the sheet's length, its count of node records and how many written numbers were rounded, or a
// refusal and its place.
pub fn read(text: &[u8], scratch: &mut [u16], sheet: &mut [u8]) -> ReadAnswer
    ensures sheet_after { outcome result scratch.new sheet.new ≡ reading text.now scratch.old sheet.old }
    ensures values { read_values result ≡ read_values (reading text.now scratch.old sheet.old).0 }
{
    if text::TEXT_LIMIT < text.len() {
        return ReadAnswer::Refused {
            refusal: Refusal::TextTooLong,
            place: 0,
        };
    }
    if scratch.len() < SCRATCH_WORDS {
        return ReadAnswer::Refused {
            refusal: Refusal::ScratchTooShort,
            place: 0,
        };
    }
    let input = parse_input(text, sheet);
    match judge(text, scratch, input.whole) {
        SplitAnswer::Refused { refusal, place } => settle(
            sheet,
            ReadAnswer::Refused { refusal, place },
        ),
        SplitAnswer::Accepted => {
            let answer = input.answer;
            settle(sheet, answer)
        }
    }
}
