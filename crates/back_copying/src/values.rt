// Numbers, values, truth values, names and strings.
ghost use Rattle.std.specs.Prelude.{◌∷◌, length};
ghost use Rattle.codec.specs.Codec.{each, many};
ghost use Rattle.ast.specs.Tree.{array};
ghost use Rattle.sheet.specs.Sheet.{word, flag, span_form, value_form};
ghost use Rattle.pieces.specs.Pieces.{a_name, a_string};
ghost use Rattle.ast.specs.Tree.{span_bytes};
ghost use Rattle.fresh.specs.Fresh as fresh;
ghost use Rattle.back_copying.specs.Means.{Puts, CopiesTo};

use back_spelling::PieceWriter;
use sheet_decode::fields::{take_byte, take_field, take_flag, take_span};

// An f32 by its bits: its sign, if it has one, and its size.
pub fn put_f32(writer: &mut PieceWriter, bits: u32)
    ensures { Puts (fresh.f32 bits) writer.old writer.new }
{
    if bits < 2147483648 {
        return writer.put_float(bits);
    }
    writer.put_mark(b'-');
    writer.put_float(bits - 2147483648);
}

pub fn copy_f32(s: &[u8], at: usize, writer: &mut PieceWriter) -> usize
    ensures { CopiesTo word fresh.f32 s.now at writer.old writer.new result }
{
    let x = take_field(s, at, 4);
    put_f32(writer, x.v);
    x.next
}

pub fn copy_u32(s: &[u8], at: usize, writer: &mut PieceWriter) -> usize
    ensures { CopiesTo word fresh.u32 s.now at writer.old writer.new result }
{
    let x = take_field(s, at, 4);
    writer.put_count(x.v);
    x.next
}

// So many elements of an array, a `,` before each.
fn copy_more_floats(s: &[u8], at: usize, n: usize, writer: &mut PieceWriter) -> usize
    ensures { CopiesTo (each word n) fresh.more_floats s.now at writer.old writer.new result }
{
    let mut next = at;
    for _k in 0..n {
        writer.put_mark(b',');
        next = copy_f32(s, next, writer);
    }
    next
}

// The elements of an array.
fn copy_floats(s: &[u8], at: usize, n: usize, writer: &mut PieceWriter) -> usize
    ensures { CopiesTo (each word n) fresh.floats s.now at writer.old writer.new result }
{
    if n == 0 {
        return at;
    }
    let next = copy_f32(s, at, writer);
    copy_more_floats(s, next, n - 1, writer)
}

// An array, behind its case.
fn copy_array(s: &[u8], at: usize, writer: &mut PieceWriter) -> usize
    ensures { CopiesTo (many word) (λ xs. fresh.value (array xs)) s.now at writer.old writer.new result }
{
    let count = take_field(s, at, 2);
    writer.put_mark(b'[');
    let next = copy_floats(s, count.next, count.v as usize, writer);
    writer.put_mark(b']');
    next
}

// A number or an array.
pub fn copy_value(s: &[u8], at: usize, writer: &mut PieceWriter) -> usize
    ensures { CopiesTo value_form fresh.value s.now at writer.old writer.new result }
{
    let k = take_byte(s, at, 2);
    if k.v == 0 {
        return copy_f32(s, k.next, writer);
    }
    copy_array(s, k.next, writer)
}

pub fn put_truth(writer: &mut PieceWriter, v: bool)
    ensures { Puts (fresh.truth v) writer.old writer.new }
{
    if v {
        writer.put_word(b"true");
    } else {
        writer.put_word(b"false");
    }
}

pub fn copy_truth(s: &[u8], at: usize, writer: &mut PieceWriter) -> usize
    ensures { CopiesTo flag fresh.truth s.now at writer.old writer.new result }
{
    let x = take_flag(s, at);
    put_truth(writer, x.v);
    x.next
}

// A name of the tree.
pub fn copy_name(text: &[u8], s: &[u8], at: usize, writer: &mut PieceWriter) -> usize
    ensures { CopiesTo (span_form (length text.now)) (λ x ps. a_name (span_bytes text.now x) ∷ ps) s.now at writer.old writer.new result }
{
    let x = take_span(s, at, text.len());
    writer.put_name(text::part(text, x.v.start, x.v.size));
    x.next
}

// A string of the tree.
pub fn copy_string(text: &[u8], s: &[u8], at: usize, writer: &mut PieceWriter) -> usize
    ensures { CopiesTo (span_form (length text.now)) (λ x ps. a_string (span_bytes text.now x) ∷ ps) s.now at writer.old writer.new result }
{
    let x = take_span(s, at, text.len());
    writer.put_string(text::part(text, x.v.start, x.v.size));
    x.next
}
