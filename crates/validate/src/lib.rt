// validate.rs: checking a sheet under a list of colours. A bad text and an unknown list are refused first. Then one walk over the nodes in
// preorder, each record decoded once, tells whether the bytes are a sheet and the first refusal of a rule, which is given of a sheet alone.
#![tactic(auto)]

ghost use Rattle.std.specs.Prelude.{◌≡◌, length};
ghost use Rattle.error.specs.Answer.{check_values};
ghost use Rattle.sheet.specs.Sheet.{decode};
ghost use Rattle.sheet.specs.Opening.{decoded};
ghost use Rattle.sheet_refusals.specs.Means.{earlier};
ghost use Rattle.checking.specs.Checking.{verdict, checking};
ghost use Rattle.validate.specs.Means.{list_answer, InLimit};

mod frames;
mod kinds;
mod nodes;

use crate::nodes::validate_nodes;
use error::{CheckAnswer, Refusal};
use sheet_decode::fields::take_field;
use sheet_refusals::{Opening, open_text};

// Whether there is such a list of colours.
fn open_list(list: u32) -> Opening
    ensures { result ≡ list_answer list }
{
    match list {
        1 | 2 => Opening::Open,
        _ => Opening::Shut {
            refusal: Refusal::UnknownList,
            place: 0,
        },
    }
}

// The first of two answers that is shut.
fn earlier(first: Opening, second: Opening) -> Opening
    ensures { result ≡ earlier first second }
{
    match first {
        Opening::Open => second,
        Opening::Shut { .. } => first,
    }
}

// Bytes of at most a sheet's limit: one walk tells whether they are a sheet, by the place behind it, and the first fault.
fn check_bytes(text: &[u8], sheet: &[u8], list: u32) -> CheckAnswer
    requires { InLimit sheet.now }
    ensures { result ≡ verdict list text.now (decoded (decode (length text.now) sheet.now)) }
{
    let head = take_field(sheet, 0, 2);
    let walk = validate_nodes(text, sheet, head.next, head.v as usize, 1, list, 16);
    if walk.next != sheet.len() {
        return CheckAnswer::Refused {
            refusal: Refusal::NotASheet,
            place: 0,
        };
    }
    match walk.found {
        None => CheckAnswer::Accepted,
        Some((refusal, place)) => CheckAnswer::Refused { refusal, place },
    }
}

pub fn check(text: &[u8], sheet: &[u8], list: u32) -> CheckAnswer
    ensures value { result ≡ checking list text.now sheet.now }
    ensures values { check_values result ≡ check_values (checking list text.now sheet.now) }
{
    if let Opening::Shut { refusal, place } = earlier(open_text(text), open_list(list)) {
        return CheckAnswer::Refused { refusal, place };
    }
    if 65535 < sheet.len() {
        return CheckAnswer::Refused {
            refusal: Refusal::NotASheet,
            place: 0,
        };
    }
    check_bytes(text, sheet, list)
}
