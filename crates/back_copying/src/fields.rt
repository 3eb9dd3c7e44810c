// Fields of a list: a name, `:`, and the value; one that is absent is omitted.
ghost use Rattle.std.specs.Prelude.{◌^◌, ◌<◌, true, List, ◌∷◌, ◌≡◌, length};
ghost use Rattle.std.proofs.Math.Option.{some};
ghost use Rattle.text.specs.Bytes.{bytes};
ghost use Rattle.text.specs.Words.{words};
ghost use Rattle.codec.specs.Codec.{◌▹◌, below, opt};
ghost use Rattle.sheet.specs.Sheet.{word, flag, value_form, damping_form};
ghost use Rattle.pieces.specs.Pieces.{a_word, word_like};
ghost use Rattle.fresh.specs.Fresh as fresh;
ghost use Rattle.grammar.specs.Grammar.{space_names, space_default};
ghost use Rattle.back_copying.specs.Means.{Puts, CopiesTo};
ghost use Rattle.back_copying.specs.WordMeans.{Literal, FieldPut, texts, all_words};

use crate::values::copy_f32;
use back_spelling::PieceWriter;
use sheet_decode::fields::{take_byte, take_field, take_flag};

const SPACES: [&str; 3] = ["linear", "lab", "oklch"];

// A field's name and its `:`.
pub fn put_field(writer: &mut PieceWriter, name: &[u8])
    requires { word_like name.now ≡ true }
    ensures { Puts (λ ps. a_word name.now ∷ fresh.mark ":" ∷ ps) writer.old writer.new }
{
    writer.put_word(name);
    writer.put_mark(b':');
}

// A number under a name.
pub fn copy_f32_field(s: &[u8], at: usize, writer: &mut PieceWriter, name: &[u8]) -> usize
    requires { word_like name.now ≡ true }
    ensures { (n : Literal) → bytes n ≡ name.now → CopiesTo word (λ x. fresh.field n fresh.f32 (some x)) s.now at writer.old writer.new result }
{
    put_field(writer, name);
    copy_f32(s, at, writer)
}

// A field under a name that may be absent, whose value a step copies.
pub fn copy_opt<F: FnOnce(&[u8], usize, &mut PieceWriter) -> usize>(
    s: &[u8],
    at: usize,
    writer: &mut PieceWriter,
    name: &[u8],
    copy: F,
) -> usize
    requires named { word_like name.now ≡ true }
    requires callable { F.IsAlwaysCallable copy }
    ensures { FieldPut name.now (F.post copy s.entry) s.now at writer.old writer.new result }
{
    let k = take_byte(s, at, 2);
    if k.v == 0 {
        return k.next;
    }
    put_field(writer, name);
    copy(s, k.next, writer)
}

// The word at a position of a table of words.
pub fn put_choice(writer: &mut PieceWriter, names: &[&str], position: usize)
    requires { (all_words (texts names.now) ≡ true) × (position < length names.now) }
    ensures { (ns : List Literal) → words ns ≡ texts names.now → Puts (fresh.choose ns position) writer.old writer.new }
{
    writer.put_word(names[position].as_bytes());
}

fn copy_choice(s: &[u8], at: usize, writer: &mut PieceWriter, names: &[&str]) -> usize
    requires { (all_words (texts names.now) ≡ true) × (0 < length names.now) × (length names.now < 2 ^ 8) }
    ensures { (ns : List Literal) → words ns ≡ texts names.now → CopiesTo (below (length names.now)) (fresh.choose ns) s.now at writer.old writer.new result }
{
    let x = take_byte(s, at, names.len() as u8);
    put_choice(writer, names, x.v as usize);
    x.next
}

pub fn copy_opt_case(
    s: &[u8],
    at: usize,
    writer: &mut PieceWriter,
    name: &[u8],
    names: &[&str],
) -> usize
    requires { (word_like name.now ≡ true) × (all_words (texts names.now) ≡ true) × (0 < length names.now) × (length names.now < 2 ^ 8) }
    ensures { (f : Literal) (ns : List Literal) → bytes f ≡ name.now → words ns ≡ texts names.now → CopiesTo (opt (below (length names.now))) (fresh.field f (fresh.choose ns)) s.now at writer.old writer.new result }
{
    let k = take_byte(s, at, 2);
    if k.v == 0 {
        return k.next;
    }
    put_field(writer, name);
    copy_choice(s, k.next, writer, names)
}

// `offset`: two numbers with `..` between them.
pub fn copy_offset(s: &[u8], at: usize, writer: &mut PieceWriter) -> usize
    ensures { CopiesTo (word ▹ word) fresh.offset s.now at writer.old writer.new result }
{
    let next = copy_f32(s, at, writer);
    writer.put_pair(b'.', b'.');
    copy_f32(s, next, writer)
}

// A number in parentheses, and two.
fn copy_in_parens(s: &[u8], at: usize, writer: &mut PieceWriter) -> usize
    ensures { CopiesTo word (λ x ps. fresh.mark "(" ∷ fresh.f32 x (fresh.mark ")" ∷ ps)) s.now at writer.old writer.new result }
{
    writer.put_mark(b'(');
    let next = copy_f32(s, at, writer);
    writer.put_mark(b')');
    next
}

fn copy_two_in_parens(s: &[u8], at: usize, writer: &mut PieceWriter) -> usize
    ensures { CopiesTo (word ▹ word) (λ x ps. fresh.mark "(" ∷ fresh.f32 x.0 (fresh.mark "," ∷ fresh.f32 x.1 (fresh.mark ")" ∷ ps))) s.now at writer.old writer.new result }
{
    writer.put_mark(b'(');
    let next = copy_f32(s, at, writer);
    writer.put_mark(b',');
    let next = copy_f32(s, next, writer);
    writer.put_mark(b')');
    next
}

// A damping mode, a field under its own name.
fn copy_damping(s: &[u8], at: usize, writer: &mut PieceWriter) -> usize
    ensures { CopiesTo damping_form (λ d. fresh.damping (some d)) s.now at writer.old writer.new result }
{
    let k = take_byte(s, at, 3);
    if k.v == 0 {
        put_field(writer, b"critically_damped");
        return copy_in_parens(s, k.next, writer);
    }
    if k.v == 1 {
        put_field(writer, b"overdamped");
        return copy_two_in_parens(s, k.next, writer);
    }
    put_field(writer, b"underdamped");
    copy_two_in_parens(s, k.next, writer)
}

pub fn copy_opt_damping(s: &[u8], at: usize, writer: &mut PieceWriter) -> usize
    ensures { CopiesTo (opt damping_form) fresh.damping s.now at writer.old writer.new result }
{
    let k = take_byte(s, at, 2);
    if k.v == 0 {
        return k.next;
    }
    copy_damping(s, k.next, writer)
}

// `samples`, whose absence reads to 32.
pub fn copy_samples(s: &[u8], at: usize, writer: &mut PieceWriter) -> usize
    ensures { CopiesTo word (λ n. fresh.field "samples" fresh.u32 (fresh.unless_is 32 n)) s.now at writer.old writer.new result }
{
    let x = take_field(s, at, 4);
    if x.v == 32 {
        return x.next;
    }
    put_field(writer, b"samples");
    writer.put_count(x.v);
    x.next
}

// `reverse`, whose absence reads to false.
pub fn copy_reverse(s: &[u8], at: usize, writer: &mut PieceWriter) -> usize
    ensures { CopiesTo flag (λ b. fresh.field "reverse" fresh.truth (fresh.only_true b)) s.now at writer.old writer.new result }
{
    let x = take_flag(s, at);
    if x.v {
        put_field(writer, b"reverse");
        writer.put_word(b"true");
    }
    x.next
}

// `space`, whose absence reads to the first.
pub fn copy_space(s: &[u8], at: usize, writer: &mut PieceWriter) -> usize
    ensures { CopiesTo (below 3) (λ k. fresh.field "space" (fresh.choose space_names) (fresh.unless_is space_default k)) s.now at writer.old writer.new result }
{
    let x = take_byte(s, at, 3);
    if x.v == 0 {
        return x.next;
    }
    put_field(writer, b"space");
    put_choice(writer, &SPACES, x.v as usize);
    x.next
}
