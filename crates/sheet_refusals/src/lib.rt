// What checking and lining refuse first: a text that is too long, a byte that no script holds, bytes that are no sheet.
#![tactic(auto)]

ghost use Rattle.std.specs.Prelude.{◌≡◌};
ghost use Rattle.text.specs.Words.{is_some};
ghost use Rattle.text.specs.Means.{place_of};
ghost use Rattle.sheet.specs.Opening.{foreign_from, opening};
ghost use Rattle.sheet_refusals.specs.Means.{answer_of, text_answer, bytes_answer};

use error::Refusal;
use text::Class;

#[derive(Clone, Copy)]
pub enum Opening {
    // The bytes are a sheet for the text.
    Open,
    Shut { refusal: Refusal, place: usize },
}

// Whether a text has a byte that no script holds. All bytes are asked, so that the loop is made into vectors.
fn has_foreign(text: &[u8]) -> bool
    ensures { result ≡ is_some (foreign_from 0 text.now) }
{
    let mut any = false;
    for &b in text {
        any |= text::in_class(Class::Foreign, b);
    }
    any
}

// The place of the first byte that no script holds. It is looked for only where there is one.
pub fn first_foreign(text: &[u8]) -> Option<usize>
    ensures { place_of result ≡ foreign_from 0 text.now }
{
    if !has_foreign(text) {
        return None;
    }
    text.iter().position(|&b| text::in_class(Class::Foreign, b))
}

// What is refused of a text alone.
pub fn open_text(text: &[u8]) -> Opening
    ensures { result ≡ text_answer text.now }
{
    if text::TEXT_LIMIT < text.len() {
        return Opening::Shut {
            refusal: Refusal::TextTooLong,
            place: 0,
        };
    }
    if let Some(place) = first_foreign(text) {
        return Opening::Shut {
            refusal: Refusal::BadForm,
            place,
        };
    }
    Opening::Open
}

// Whether bytes are a sheet for a text of a length.
pub fn open_bytes(sheet: &[u8], text_len: usize) -> Opening
    ensures { result ≡ bytes_answer text_len sheet.now }
{
    if sheet_records::is_sheet(sheet, text_len) {
        return Opening::Open;
    }
    Opening::Shut {
        refusal: Refusal::NotASheet,
        place: 0,
    }
}

pub fn open_sheet(text: &[u8], sheet: &[u8]) -> Opening
    ensures { result ≡ answer_of (opening text.now sheet.now) }
{
    match open_text(text) {
        Opening::Open => open_bytes(sheet, text.len()),
        shut => shut,
    }
}
