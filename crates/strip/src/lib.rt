// The operations, each answering with one u64 (`packed`). `strip_c` exports them for C and Rust to link.
#![tactic(auto)]

ghost use Rattle.std.specs.Prelude.{◌≡◌};
ghost use Rattle.colors.specs.Css.{coloring};
ghost use Rattle.reading.specs.Reading.{reading};
ghost use Rattle.checking.specs.Checking.{checking};
ghost use Rattle.lining.specs.Lining.{lining};
ghost use Rattle.converting.specs.Convert.{converting};
ghost use Rattle.script.specs.Output.{printing};
ghost use Rattle.totals.specs.Mean.{mean};
ghost use Rattle.feeding.specs.Feed.{fed, feeding};
ghost use Rattle.writing.specs.Back.{writing};
ghost use Rattle.books.specs.Lookup.{looking_up};
ghost use Rattle.books.specs.Listing.{listing};
ghost use Rattle.planed.specs.Planing.{planing, unplaning};
ghost use Rattle.drawing.specs.Wave.{drawing};
ghost use Rattle.packed.specs.Packed.{packed_check, packed_lookup, read_outcome, line_outcome, print_outcome, feed_outcome, mean_outcome, color_outcome, convert_outcome, order_outcome, wave_outcome};

use packed::{
    pack_check, pack_color, pack_fed, pack_line, pack_lookup, pack_mean, pack_order, pack_read,
};

// parser::read.
pub fn strip_read(text: &[u8], scratch: &mut [u16], sheet: &mut [u8]) -> u64
    ensures { (result, scratch.new, sheet.new) ≡ read_outcome (reading text.now scratch.old sheet.old) }
{
    pack_read(parser::read(text, scratch, sheet))
}

// validate::check.
pub fn strip_check(text: &[u8], sheet: &[u8], list: u32) -> u64
    ensures { result ≡ packed_check (checking list text.now sheet.now) }
{
    pack_check(validate::check(text, sheet, list))
}

// line::line.
pub fn strip_line(text: &[u8], sheet: &[u8], ordinal: u32, out: &mut [u8]) -> u64
    ensures { (result, out.new) ≡ line_outcome (lining text.now sheet.now ordinal out.old) }
{
    pack_line(line::line(text, sheet, ordinal as usize, out))
}

// print::print.
pub fn strip_print(
    text: &[u8],
    scratch: &mut [u16],
    sheet: &mut [u8],
    page: &mut [u8],
    list: u32,
) -> u64
    ensures { (result, scratch.new, sheet.new, page.new) ≡ print_outcome (printing list text.now scratch.old sheet.old page.old) }
{
    pack_line(print::print(text, scratch, sheet, page, list))
}

// feed::feed.
pub fn strip_feed(
    totals: &mut [u32; 60],
    text: &[u8],
    scratch: &mut [u16],
    sheet: &mut [u8],
    list: u32,
) -> u64
    ensures { (result, totals.new, scratch.new, sheet.new) ≡ feed_outcome (feeding totals.old (fed list text.now scratch.old sheet.old)) }
{
    pack_fed(feed::feed(totals, text, scratch, sheet, list))
}

// totals::mean: 1, and the fraction in `out`; 0 for nothing, and `out` as it was.
pub fn strip_mean(totals: &[u32; 60], which: u32, out: &mut [u32; 2]) -> u64
    ensures { (result, out.new) ≡ mean_outcome (mean totals.now which) out.old }
{
    pack_mean(totals::mean(totals, which), out)
}

// back::write.
pub fn strip_write(text: &[u8], sheet: &[u8], out: &mut [u8], list: u32) -> u64
    ensures { (result, out.new) ≡ line_outcome (writing list text.now sheet.now out.old) }
{
    pack_line(back::write(text, sheet, out, list))
}

// colors::color.
pub fn strip_color(string: &[u8]) -> u64
    ensures { result ≡ color_outcome (coloring string.now) }
{
    let mut bytes = [0u8; 4];
    let answer = colors::color(string, &mut bytes);
    pack_color(answer, &bytes)
}

// convert::convert.
pub fn strip_convert(text: &[u8], sheet: &mut [u8]) -> u64
    ensures { (result, sheet.new) ≡ convert_outcome (converting text.now sheet.old) }
{
    pack_check(convert::convert(text, sheet))
}

// lookup::find: the body is a part of the book, from the start that is answered.
pub fn strip_lookup(store: &[u8], chain: &[u8], name: &[u8]) -> u64
    ensures { result ≡ packed_lookup (looking_up store.now chain.now name.now) }
{
    pack_lookup(lookup::find(store, chain, name))
}

// listing::list.
pub fn strip_order(book: &[u8], out: &mut [u8]) -> u64
    ensures { (result, out.new) ≡ order_outcome (listing book.now out.old) }
{
    pack_order(listing::list(book, out))
}

// plane::plane.
pub fn strip_plane(text: &[u8], sheet: &[u8], out: &mut [u8]) -> u64
    ensures { (result, out.new) ≡ line_outcome (planing text.now sheet.now out.old) }
{
    pack_line(plane::plane(text, sheet, out))
}

// plane::unplane.
pub fn strip_unplane(text: &[u8], planed: &[u8], out: &mut [u8]) -> u64
    ensures { (result, out.new) ≡ line_outcome (unplaning text.now planed.now out.old) }
{
    pack_line(plane::unplane(text, planed, out))
}

// wave::wave.
pub fn strip_wave(kind: u32, phase: u32, heights: &mut [i16]) -> u64
    ensures { (result, heights.new) ≡ wave_outcome (drawing kind phase heights.old) }
{
    pack_check(wave::wave(kind, phase, heights))
}
