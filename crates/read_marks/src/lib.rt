// parser.rs: label and at, each read behind its keyword; its fields are written at `out`. For our own
// crates: each function requires a cursor that stands in a text of at most 16,384 bytes, and a place below 2^30.
#![tactic(auto)]

ghost use Rattle.std.specs.Prelude.{◌≡◌, not, cond};
ghost use Rattle.grammar.specs.Grammar.{parse_label, parse_at};
ghost use Rattle.read_cursor.specs.Means.{Ready};
ghost use Rattle.read_arrays.specs.Means.{Room};
ghost use Rattle.read_node.specs.Means.{LeafMeans};
ghost use Rattle.read_marks.specs.Means.{SignMeans};

use error::Refusal;
use read_cursor::{Cursor, MarkRead, NumberRead, WordRead};
use read_node::NodeRead;

pub fn parse_label(text: &[u8], sheet: &mut [u8], c: Cursor, out: usize) -> NodeRead
    requires { Ready text.now c × Room text.now out }
    ensures { LeafMeans text.now sheet.old sheet.new c out parse_label result }
{
    match read_cursor::string(text, c) {
        WordRead::Missing(p) => NodeRead::Refused(Refusal::Missing, p),
        WordRead::Is(s, m) => match read_cursor::mark(text, m, b';') {
            MarkRead::Missing(p) => NodeRead::Refused(Refusal::Missing, p),
            MarkRead::Is(n) => { NodeRead::Is(sheet_encode::put_span(sheet, out, s), n) }
        },
    }
}

// Whether `at` has a sign of its own, whether that is a minus, and the cursor behind it.
#[derive(Clone, Copy)]
pub struct Sign {
    pub relative: bool,
    pub minus: bool,
    pub next: Cursor,
}

fn at_sign(text: &[u8], c: Cursor) -> Sign
    requires { Ready text.now c }
    ensures { SignMeans text.now c result }
{
    let plus = read_cursor::eat(text, c, b'+');
    let m = plus.next;
    if plus.taken {
        return Sign {
            relative: true,
            minus: false,
            next: m,
        };
    }
    let minus = read_cursor::eat(text, m, b'-');
    let n = minus.next;
    Sign {
        relative: minus.taken,
        minus: minus.taken,
        next: n,
    }
}

// The number's sign behind `at`'s own.
fn turned(negative: bool, minus: bool) -> bool
    ensures { result ≡ cond minus (not negative) negative }
{
    if minus {
        return !negative;
    }
    negative
}

pub fn parse_at(text: &[u8], sheet: &mut [u8], c: Cursor, out: usize) -> NodeRead
    requires { Ready text.now c × Room text.now out }
    ensures { LeafMeans text.now sheet.old sheet.new c out parse_at result }
{
    let sign = at_sign(text, c);
    let m = sign.next;
    match read_cursor::number(text, m) {
        NumberRead::Missing(p) => NodeRead::Refused(Refusal::Malformed, p),
        NumberRead::Is(negative, n, e) => {
            let x = token::float_of(text, turned(negative, sign.minus), n);
            let end = read_cursor::eat(text, read_cursor::count(e, x.rounded), b';');
            let relative_at = sheet_encode::put_float(sheet, out, x.value);
            let q = sheet_encode::put_flag(sheet, relative_at, sign.relative);
            let next = end.next;
            NodeRead::Is(q, next)
        }
    }
}
