// Easings and loop modes.
ghost use Rattle.std.specs.Prelude.{true, ◌∷◌, ◌≡◌, eqb, length};
ghost use Rattle.text.specs.Bytes.{bytes};
ghost use Rattle.codec.specs.Codec.{◌▹◌};
ghost use Rattle.sheet.specs.Sheet as Sheet;
ghost use Rattle.sheet.specs.Sheet.{word, flag, span_form, easing_form, loop_form};
ghost use Rattle.pieces.specs.Pieces.{a_word, word_like};
ghost use Rattle.ast.specs.Tree.{span_bytes};
ghost use Rattle.fresh.specs.Meaning.{named, cubic_bezier, rough, slow_mo, easing_sense};
ghost use Rattle.fresh.specs.Fresh as fresh;
ghost use Rattle.back_spelling.specs.Means.{page_of};
ghost use Rattle.back_copying.specs.Means.{Puts, CopiesTo};
ghost use Rattle.back_copying.specs.WordMeans.{Literal};
ghost use Rattle.back_easings.specs.Means.{comma_unless, PairPut};

use back_copying::values::{copy_f32, copy_u32, put_f32};
use back_spelling::PieceWriter;
use sheet_decode::fields::{take_byte, take_field, take_flag, take_span};

// `Easing::` is kept.
fn put_named(writer: &mut PieceWriter, variant: bool, name: &[u8])
    ensures { Puts (fresh.easing (named variant name.now)) writer.old writer.new }
{
    if variant {
        writer.put_word(b"Easing");
        writer.put_pair(b':', b':');
        return writer.put_name(name);
    }
    writer.put_plain(name);
}

fn copy_named(text: &[u8], s: &[u8], at: usize, writer: &mut PieceWriter) -> usize
    ensures { CopiesTo (flag ▹ span_form (length text.now)) (λ x. fresh.easing (named x.0 (span_bytes text.now x.1))) s.now at writer.old writer.new result }
{
    let variant = take_flag(s, at);
    let x = take_span(s, variant.next, text.len());
    put_named(writer, variant.v, text::part(text, x.v.start, x.v.size));
    x.next
}

fn copy_bezier(s: &[u8], at: usize, writer: &mut PieceWriter) -> usize
    ensures { CopiesTo (word ▹ word ▹ word ▹ word) (λ x. fresh.easing (cubic_bezier x.0 x.1.0 x.1.1.0 x.1.1.1)) s.now at writer.old writer.new result }
{
    writer.put_word(b"cubic_bezier");
    writer.put_mark(b'(');
    let at = copy_f32(s, at, writer);
    writer.put_mark(b',');
    let at = copy_f32(s, at, writer);
    writer.put_mark(b',');
    let at = copy_f32(s, at, writer);
    writer.put_mark(b',');
    let at = copy_f32(s, at, writer);
    writer.put_mark(b')');
    at
}

// A word and a whole number in parentheses.
fn copy_counted(s: &[u8], at: usize, writer: &mut PieceWriter, word: &[u8]) -> usize
    requires { word_like word.now ≡ true }
    ensures { CopiesTo Sheet.word (λ n ps. a_word word.now ∷ fresh.mark "(" ∷ fresh.u32 n (fresh.mark ")" ∷ ps)) s.now at writer.old writer.new result }
{
    writer.put_word(word);
    writer.put_mark(b'(');
    let at = copy_u32(s, at, writer);
    writer.put_mark(b')');
    at
}

// A field in parentheses; a `,` stands before it unless it is the first.
pub fn put_pair_name(writer: &mut PieceWriter, first: bool, name: &[u8])
    requires { word_like name.now ≡ true }
    ensures { Puts (λ ps. comma_unless first (a_word name.now ∷ fresh.mark ":" ∷ ps)) writer.old writer.new }
{
    put_comma(writer, first);
    writer.put_word(name);
    writer.put_mark(b':');
}

pub fn put_comma(writer: &mut PieceWriter, first: bool)
    ensures { Puts (comma_unless first) writer.old writer.new }
{
    if !first {
        writer.put_mark(b',');
    }
}

// A number in parentheses, unless it is what absence reads to.
pub fn put_f32_unless(writer: &mut PieceWriter, first: bool, name: &[u8], bits: u32, absent: u32)
    requires { word_like name.now ≡ true }
    ensures { (n : Literal) → bytes n ≡ name.now → PairPut first (eqb bits absent) (n, fresh.f32 bits) (page_of writer.old) (page_of writer.new) }
{
    if bits != absent {
        put_pair_name(writer, first, name);
        put_f32(writer, bits);
    }
}

pub fn put_u32_unless(writer: &mut PieceWriter, first: bool, name: &[u8], n: u32, absent: u32)
    requires { word_like name.now ≡ true }
    ensures { (m : Literal) → bytes m ≡ name.now → PairPut first (eqb n absent) (m, fresh.u32 n) (page_of writer.old) (page_of writer.new) }
{
    if n != absent {
        put_pair_name(writer, first, name);
        writer.put_count(n);
    }
}

// Absence reads to 0.5 and 8.
fn copy_rough(s: &[u8], at: usize, writer: &mut PieceWriter) -> usize
    ensures { CopiesTo (word ▹ word) (λ x. fresh.easing (rough x.0 x.1)) s.now at writer.old writer.new result }
{
    let a = take_field(s, at, 4);
    let n = take_field(s, a.next, 4);
    writer.put_word(b"rough");
    writer.put_mark(b'(');
    put_f32_unless(writer, true, b"strength", a.v, 0x3f000000);
    put_u32_unless(writer, a.v == 0x3f000000, b"points", n.v, 8);
    writer.put_mark(b')');
    n.next
}

// Absence reads to 0.7 and 2.
fn copy_slow_mo(s: &[u8], at: usize, writer: &mut PieceWriter) -> usize
    ensures { CopiesTo (word ▹ word) (λ x. fresh.easing (slow_mo x.0 x.1)) s.now at writer.old writer.new result }
{
    let a = take_field(s, at, 4);
    let b = take_field(s, a.next, 4);
    writer.put_word(b"slowmo");
    writer.put_mark(b'(');
    put_f32_unless(writer, true, b"linear_ratio", a.v, 0x3f333333);
    put_f32_unless(writer, a.v == 0x3f333333, b"power", b.v, 0x40000000);
    writer.put_mark(b')');
    b.next
}

pub fn copy_easing(text: &[u8], s: &[u8], at: usize, writer: &mut PieceWriter) -> usize
    ensures { CopiesTo (easing_form (length text.now)) (λ e. fresh.easing (easing_sense text.now e)) s.now at writer.old writer.new result }
{
    let k = take_byte(s, at, 6);
    match k.v {
        0 => copy_named(text, s, k.next, writer),
        1 => copy_bezier(s, k.next, writer),
        2 => copy_counted(s, k.next, writer, b"steps"),
        3 => copy_counted(s, k.next, writer, b"wiggle"),
        4 => copy_rough(s, k.next, writer),
        _ => copy_slow_mo(s, k.next, writer),
    }
}

pub fn copy_loop(s: &[u8], at: usize, writer: &mut PieceWriter) -> usize
    ensures { CopiesTo loop_form fresh.loop_mode s.now at writer.old writer.new result }
{
    let k = take_byte(s, at, 5);
    match k.v {
        0 => writer.put_word(b"once"),
        1 => return copy_counted(s, k.next, writer, b"times"),
        2 => writer.put_word(b"forever"),
        3 => writer.put_word(b"ping_pong"),
        _ => return copy_counted(s, k.next, writer, b"ping_pong"),
    }
    k.next
}
