// What stands before the block of a `stagger`.
ghost use Rattle.std.specs.Prelude.{◌<◌, false, eqb};
ghost use Rattle.codec.specs.Codec.{◌▹◌, below, opt};
ghost use Rattle.ast.specs.Tree.{grid, random};
ghost use Rattle.sheet.specs.Sheet.{word, pattern_form};
ghost use Rattle.fresh.specs.Fresh as fresh;
ghost use Rattle.grammar.specs.Grammar.{origin_names, origin_default};
ghost use Rattle.back_spelling.specs.Means.{page_of};
ghost use Rattle.back_copying.specs.Means.{CopiesTo};
ghost use Rattle.back_easings.specs.Means.{PairPut, delay_by};

use crate::easings::{put_f32_unless, put_pair_name, put_u32_unless};
use back_copying::fields::{put_choice, put_field};
use back_copying::values::copy_f32;
use back_spelling::PieceWriter;
use sheet_decode::fields::{take_byte, take_field};

const ORIGINS: [&str; 9] = [
    "top_left",
    "top_right",
    "bottom_left",
    "bottom_right",
    "center",
    "top",
    "bottom",
    "left",
    "right",
];

// `origin`, whose absence reads to `center`.
fn put_origin(writer: &mut PieceWriter, origin: u8)
    requires { origin < 9 }
    ensures { PairPut false (eqb origin origin_default) ("origin", fresh.choose origin_names origin) (page_of writer.old) (page_of writer.new) }
{
    if origin != 4 {
        put_pair_name(writer, false, b"origin");
        put_choice(writer, &ORIGINS, origin as usize);
    }
}

fn copy_grid(s: &[u8], at: usize, writer: &mut PieceWriter) -> usize
    ensures { CopiesTo (word ▹ word ▹ below 9) (λ x. fresh.pattern (grid x.0 x.1.0 x.1.1)) s.now at writer.old writer.new result }
{
    let cols = take_field(s, at, 4);
    let rows = take_field(s, cols.next, 4);
    let origin = take_byte(s, rows.next, 9);
    writer.put_word(b"grid");
    writer.put_mark(b'(');
    put_pair_name(writer, true, b"cols");
    writer.put_count(cols.v);
    put_pair_name(writer, false, b"rows");
    writer.put_count(rows.v);
    put_origin(writer, origin.v);
    writer.put_mark(b')');
    origin.next
}

// Absence reads to 0, 0.0 and 0.1.
fn copy_random(s: &[u8], at: usize, writer: &mut PieceWriter) -> usize
    ensures { CopiesTo (word ▹ word ▹ word) (λ x. fresh.pattern (random x.0 x.1.0 x.1.1)) s.now at writer.old writer.new result }
{
    let seed = take_field(s, at, 4);
    let min = take_field(s, seed.next, 4);
    let max = take_field(s, min.next, 4);
    writer.put_word(b"random");
    writer.put_mark(b'(');
    put_u32_unless(writer, true, b"seed", seed.v, 0);
    put_f32_unless(writer, seed.v == 0, b"min", min.v, 0);
    let first = (seed.v == 0) & (min.v == 0);
    put_f32_unless(writer, first, b"max", max.v, 0x3dcccccd);
    writer.put_mark(b')');
    max.next
}

fn copy_pattern(s: &[u8], at: usize, writer: &mut PieceWriter) -> usize
    ensures { CopiesTo pattern_form fresh.pattern s.now at writer.old writer.new result }
{
    let k = take_byte(s, at, 4);
    match k.v {
        0 => return copy_grid(s, k.next, writer),
        1 => return copy_random(s, k.next, writer),
        2 => writer.put_word(b"center_out"),
        _ => writer.put_word(b"edges_in"),
    }
    k.next
}

// `delay`, with a `,` before it behind a pattern.
fn copy_delay(s: &[u8], at: usize, writer: &mut PieceWriter, first: bool) -> usize
    ensures { CopiesTo (opt word) (delay_by first) s.now at writer.old writer.new result }
{
    let k = take_byte(s, at, 2);
    if k.v == 0 {
        return k.next;
    }
    put_pair_name(writer, first, b"delay");
    copy_f32(s, k.next, writer)
}

pub fn copy_opening(s: &[u8], at: usize, writer: &mut PieceWriter) -> usize
    ensures { CopiesTo (opt pattern_form ▹ opt word) (λ x. fresh.opening x.0 x.1) s.now at writer.old writer.new result }
{
    let k = take_byte(s, at, 2);
    if k.v == 0 {
        return copy_delay(s, k.next, writer, true);
    }
    put_field(writer, b"pattern");
    let at = copy_pattern(s, k.next, writer);
    copy_delay(s, at, writer, false)
}
