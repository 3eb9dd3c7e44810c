// What a node's reader answers, and what tween and spring begin with. For our own crates: each function requires a cursor that
// stands in a text of at most 16,384 bytes, and a place below 2^30.
#![tactic(auto)]

ghost use Rattle.read_cursor.specs.Means.{Ready};
ghost use Rattle.read_arrays.specs.Means.{Room};
ghost use Rattle.std.specs.Prelude.{◌+◌, ◌≤◌, ◌<◌, ◌^◌, length};
ghost use Rattle.text.specs.Limits.{text_limit};
ghost use Rattle.read_node.specs.Means.{TargetMeans, PairMeans, EndsMeans};

use error::Refusal;
use read_arrays::ValueRead;
use read_cursor::{Cursor, MarkRead, WordRead};

// The place behind the fields, and the cursor behind the node.
#[derive(Clone, Copy)]
pub enum NodeRead {
    Is(usize, Cursor),
    Refused(Refusal, usize),
}

// ---- the target and the two values of tween and spring

// The target and its `:`.
fn target_mark(text: &[u8], c: Cursor) -> WordRead
    requires { Ready text.now c }
    ensures { TargetMeans text.now c result }
{
    match read_cursor::word_before(text, c, b':') {
        WordRead::Missing(p) => WordRead::Missing(p),
        WordRead::Is(target, m) => match read_cursor::mark(text, m, b':') {
            MarkRead::Missing(p) => WordRead::Missing(p),
            MarkRead::Is(n) => WordRead::Is(target, n),
        },
    }
}

// `from => to`, written at `out`.
fn value_pair(text: &[u8], sheet: &mut [u8], c: Cursor, out: usize) -> ValueRead
    requires { Ready text.now c × (length text.now ≤ text_limit) × (out < 2 ^ 30 + 64) }
    ensures { PairMeans text.now sheet.old sheet.new c out result }
{
    match read_arrays::parse_value(text, sheet, c, out) {
        ValueRead::Refused(r, p) => ValueRead::Refused(r, p),
        ValueRead::Is(to_at, m) => match read_cursor::both(text, m, b'=', b'>') {
            MarkRead::Missing(p) => ValueRead::Refused(Refusal::Missing, p),
            MarkRead::Is(n) => read_arrays::parse_value(text, sheet, n, to_at),
        },
    }
}

// `target: from => to`: the target and both values, written at `out`.
pub fn parse_ends(text: &[u8], sheet: &mut [u8], c: Cursor, out: usize) -> ValueRead
    requires { Ready text.now c × Room text.now out }
    ensures { EndsMeans text.now sheet.old sheet.new c out result }
{
    match target_mark(text, c) {
        WordRead::Missing(p) => ValueRead::Refused(Refusal::Missing, p),
        WordRead::Is(target, m) => {
            let from_at = sheet_encode::put_span(sheet, out, target);
            value_pair(text, sheet, m, from_at)
        }
    }
}
