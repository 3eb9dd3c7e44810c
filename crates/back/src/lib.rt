// 02 (f), "Give me the script back": a fresh script from a text and its sheet.
#![tactic(auto)]

ghost use Rattle.std.specs.Prelude.{◌≡◌, List, ℕ};
ghost use Rattle.std.specs.Borrow.{GName};
ghost use Rattle.error.specs.Answer.{line_values};
ghost use Rattle.fresh.specs.Meaning.{Sense};
ghost use Rattle.fresh.specs.Fresh.{pieces};
ghost use Rattle.back_copying.specs.Means.{Written};
ghost use Rattle.back_spelling.specs.Means.{page, on_page};
ghost use Rattle.writing.specs.Back as Back;
ghost use Rattle.writing.specs.Back.{written, writing};

use back_spelling::{Pen, PieceWriter};
use error::{CheckAnswer, LineAnswer, Refusal};

fn refused(out: &mut [u8], refusal: Refusal, place: usize) -> LineAnswer
    ensures { (result, out.new) ≡ Back.refusal refusal place out.old }
{
    sheet_encode::clear(out, 0);
    LineAnswer::Refused { refusal, place }
}

// What was written, or 34, or 35.
fn finish(out: &mut [u8], pen: Pen) -> LineAnswer
    ensures { (start : List ℕ) (g : GName) (x : Sense) → Written (pieces x) (page g start 0) (on_page g out.old pen.at pen.fits) → (result, out.new) ≡ written start x }
{
    let Pen { at, fits } = pen;
    if !fits {
        return refused(out, Refusal::Unwritable, 0);
    }
    if at == 0 {
        sheet_encode::clear(out, 0);
        return LineAnswer::Accepted { length: 0 };
    }
    let length = at - 1;
    if 16384 < length {
        return refused(out, Refusal::ScriptTooLong, 0);
    }
    if out.len() < length {
        return refused(out, Refusal::ScriptTooLong, 0);
    }
    sheet_encode::clear(out, length);
    LineAnswer::Accepted { length }
}

// A fresh script of a text and its sheet, checked under a list of colours, into a lent buffer.
pub fn write(text: &[u8], sheet: &[u8], out: &mut [u8], list: u32) -> LineAnswer
    ensures out_after { (result, out.new) ≡ writing list text.now sheet.now out.old }
    ensures values { line_values result ≡ line_values (writing list text.now sheet.now out.old).0 }
{
    match validate::check(text, sheet, list) {
        CheckAnswer::Refused { refusal, place } => refused(out, refusal, place),
        CheckAnswer::Accepted => {
            let head = sheet_decode::fields::take_field(sheet, 0, 2);
            let mut writer = PieceWriter::new(out);
            back_nodes::copy_nodes(text, sheet, head.next, head.v as usize, &mut writer);
            let PieceWriter { out, pen } = writer;
            finish(out, pen)
        }
    }
}
