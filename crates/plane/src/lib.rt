// 02 (k): planes before storage, and their inverse.
#![tactic(auto)]

ghost use Rattle.std.specs.Prelude.{◌≡◌};
ghost use Rattle.error.specs.Answer.{line_values};
ghost use Rattle.planed.specs.Planing.{planing, unplaning};

use crate::moves::Source;
use error::{LineAnswer, Refusal};
use sheet_refusals::{Opening, open_text};
use sheet_shape::{Shape, planed_shape, sheet_shape};

pub mod moves;

// The planed form of a sheet.
pub fn plane(text: &[u8], sheet: &[u8], out: &mut [u8]) -> LineAnswer
    ensures out_after { (result, out.new) ≡ planing text.now sheet.now out.old }
    ensures values { line_values result ≡ line_values (planing text.now sheet.now out.old).0 }
{
    if let Opening::Shut { refusal, place } = open_text(text) {
        return LineAnswer::Refused { refusal, place };
    }
    match sheet_shape(sheet, text.len()) {
        Some(Shape { rest, numbers }) => {
            let source = Source {
                bytes: sheet,
                text_len: text.len(),
                width: 4,
                rest,
                numbers,
            };
            source.carry(out)
        }
        None => LineAnswer::Refused {
            refusal: Refusal::NotASheet,
            place: 0,
        },
    }
}

// The sheet of a planed form.
pub fn unplane(text: &[u8], planed: &[u8], out: &mut [u8]) -> LineAnswer
    ensures out_after { (result, out.new) ≡ unplaning text.now planed.now out.old }
    ensures values { line_values result ≡ line_values (unplaning text.now planed.now out.old).0 }
{
    if let Opening::Shut { refusal, place } = open_text(text) {
        return LineAnswer::Refused { refusal, place };
    }
    match planed_shape(planed, text.len()) {
        Some(Shape { rest, numbers }) => {
            let source = Source {
                bytes: planed,
                text_len: text.len(),
                width: 0,
                rest,
                numbers,
            };
            source.carry(out)
        }
        None => LineAnswer::Refused {
            refusal: Refusal::NotPlaned,
            place: 0,
        },
    }
}
