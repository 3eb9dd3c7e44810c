// parser.rs, parse_value: a number or an array of numbers, written into the sheet as it is read.
// The functions are for our own crates: each requires a cursor that stands in a text of at most 16,384 bytes, and a place below 2^31.
#![tactic(auto)]

ghost use Rattle.read_cursor.specs.Means.{Ready};
ghost use Rattle.read_arrays.specs.Means.{Wide, Wider, ItemsMeans, ArrayMeans, HeldMeans, ValueMeans};

use ast::ValueExpr;
use error::Refusal;
use read_cursor::{Cursor, FloatRead, MarkRead};

// How many elements, the place behind what was written, and the cursor.
#[derive(Clone, Copy)]
pub enum ItemsRead {
    Is(usize, usize, Cursor),
    Refused(Refusal, usize),
}

// A scalar, which is not written, or an array's count; the place behind what was written, and the cursor.
#[derive(Clone, Copy)]
pub enum HeldRead {
    Is(ValueExpr, usize, Cursor),
    Refused(Refusal, usize),
}

// The place behind what was written, and the cursor.
#[derive(Clone, Copy)]
pub enum ValueRead {
    Is(usize, Cursor),
    Refused(Refusal, usize),
}

// The elements of an array, written from `out` on.
fn array_items(text: &[u8], sheet: &mut [u8], c: Cursor, out: usize) -> ItemsRead
    requires { Ready text.now c × Wider text.now out }
    ensures { ItemsMeans text.now sheet.old sheet.new c out result }
{
    let mut m = c;
    let mut at = out;
    let mut n: usize = 0;
    loop {
        if read_cursor::ends(m) {
            return ItemsRead::Is(n, at, m);
        }
        match read_cursor::parse_float(text, m) {
            FloatRead::Refused(r, p) => return ItemsRead::Refused(r, p),
            FloatRead::Is(x, e) => {
                at = sheet_encode::put_float(sheet, at, x);
                n += 1;
                let ate = read_cursor::eat(text, e, b',');
                m = ate.next;
                if !ate.taken {
                    return ItemsRead::Is(n, at, m);
                }
            }
        }
    }
}

// An array, behind its `[`: its case, its count, its elements.
fn array_value(text: &[u8], sheet: &mut [u8], c: Cursor, out: usize) -> ItemsRead
    requires { Ready text.now c × Wide text.now out }
    ensures { ArrayMeans text.now sheet.old sheet.new c out result }
{
    let first = sheet_encode::put_byte(sheet, out, 1);
    match array_items(text, sheet, c, first + 2) {
        ItemsRead::Refused(r, p) => ItemsRead::Refused(r, p),
        ItemsRead::Is(n, end, m) => {
            sheet_encode::patch_count(sheet, first, n);
            ItemsRead::Is(n, end, read_cursor::leave_group(text, m, b']'))
        }
    }
}

// A number, which is held and not written, or an array, written at `out` as it is read, since it has no bound.
pub fn read_value(text: &[u8], sheet: &mut [u8], c: Cursor, out: usize) -> HeldRead
    requires { Ready text.now c × Wide text.now out }
    ensures { HeldMeans text.now sheet.old sheet.new c out result }
{
    match read_cursor::mark(text, c, b'[') {
        MarkRead::Is(m) => match array_value(text, sheet, m, out) {
            ItemsRead::Refused(r, p) => HeldRead::Refused(r, p),
            ItemsRead::Is(n, end, e) => HeldRead::Is(ValueExpr::Array(n), end, e),
        },
        MarkRead::Missing(_) => match read_cursor::parse_float(text, c) {
            FloatRead::Refused(r, p) => HeldRead::Refused(r, p),
            FloatRead::Is(x, m) => HeldRead::Is(ValueExpr::Scalar(x), out, m),
        },
    }
}

// A number or an array, written at `out`.
pub fn parse_value(text: &[u8], sheet: &mut [u8], c: Cursor, out: usize) -> ValueRead
    requires { Ready text.now c × Wide text.now out }
    ensures { ValueMeans text.now sheet.old sheet.new c out result }
{
    match read_value(text, sheet, c, out) {
        HeldRead::Refused(r, p) => ValueRead::Refused(r, p),
        HeldRead::Is(v, end, m) => match v {
            ValueExpr::Scalar(x) => ValueRead::Is(sheet_encode::put_scalar(sheet, out, x), m),
            ValueExpr::Array(_) => ValueRead::Is(end, m),
        },
    }
}
