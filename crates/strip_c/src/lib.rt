// The operations for C and Rust to link: the functions of `strip`, under their names and with their promises.
#![tactic(auto)]

ghost use Rattle.std.specs.Prelude.{◌≡◌};
ghost use Rattle.colors.specs.Css.{coloring};
ghost use Rattle.reading.specs.Reading.{reading};
ghost use Rattle.checking.specs.Checking.{checking};
ghost use Rattle.lining.specs.Lining.{lining};
ghost use Rattle.converting.specs.Convert.{converting};
ghost use Rattle.script.specs.Output.{printing};
ghost use Rattle.totals.specs.Mean.{mean};
ghost use Rattle.feeding.specs.Feed.{fed, feeding};
ghost use Rattle.writing.specs.Back.{writing};
ghost use Rattle.books.specs.Lookup.{looking_up};
ghost use Rattle.books.specs.Listing.{listing};
ghost use Rattle.planed.specs.Planing.{planing, unplaning};
ghost use Rattle.drawing.specs.Wave.{drawing};
ghost use Rattle.packed.specs.Packed.{packed_check, packed_lookup, read_outcome, line_outcome, print_outcome, feed_outcome, mean_outcome, color_outcome, convert_outcome, order_outcome, wave_outcome};

#[unsafe(no_mangle)]
pub extern "C" fn strip_read(text: &[u8], scratch: &mut [u16], sheet: &mut [u8]) -> u64
    ensures { (result, scratch.new, sheet.new) ≡ read_outcome (reading text.now scratch.old sheet.old) }
{
    strip::strip_read(text, scratch, sheet)
}

#[unsafe(no_mangle)]
pub extern "C" fn strip_check(text: &[u8], sheet: &[u8], list: u32) -> u64
    ensures { result ≡ packed_check (checking list text.now sheet.now) }
{
    strip::strip_check(text, sheet, list)
}

#[unsafe(no_mangle)]
pub extern "C" fn strip_line(text: &[u8], sheet: &[u8], ordinal: u32, out: &mut [u8]) -> u64
    ensures { (result, out.new) ≡ line_outcome (lining text.now sheet.now ordinal out.old) }
{
    strip::strip_line(text, sheet, ordinal, out)
}

#[unsafe(no_mangle)]
pub extern "C" fn strip_print(
    text: &[u8],
    scratch: &mut [u16],
    sheet: &mut [u8],
    page: &mut [u8],
    list: u32,
) -> u64
    ensures { (result, scratch.new, sheet.new, page.new) ≡ print_outcome (printing list text.now scratch.old sheet.old page.old) }
{
    strip::strip_print(text, scratch, sheet, page, list)
}

#[unsafe(no_mangle)]
pub extern "C" fn strip_feed(
    totals: &mut [u32; 60],
    text: &[u8],
    scratch: &mut [u16],
    sheet: &mut [u8],
    list: u32,
) -> u64
    ensures { (result, totals.new, scratch.new, sheet.new) ≡ feed_outcome (feeding totals.old (fed list text.now scratch.old sheet.old)) }
{
    strip::strip_feed(totals, text, scratch, sheet, list)
}

#[unsafe(no_mangle)]
pub extern "C" fn strip_mean(totals: &[u32; 60], which: u32, out: &mut [u32; 2]) -> u64
    ensures { (result, out.new) ≡ mean_outcome (mean totals.now which) out.old }
{
    strip::strip_mean(totals, which, out)
}

#[unsafe(no_mangle)]
pub extern "C" fn strip_write(text: &[u8], sheet: &[u8], out: &mut [u8], list: u32) -> u64
    ensures { (result, out.new) ≡ line_outcome (writing list text.now sheet.now out.old) }
{
    strip::strip_write(text, sheet, out, list)
}

#[unsafe(no_mangle)]
pub extern "C" fn strip_color(string: &[u8]) -> u64
    ensures { result ≡ color_outcome (coloring string.now) }
{
    strip::strip_color(string)
}

#[unsafe(no_mangle)]
pub extern "C" fn strip_convert(text: &[u8], sheet: &mut [u8]) -> u64
    ensures { (result, sheet.new) ≡ convert_outcome (converting text.now sheet.old) }
{
    strip::strip_convert(text, sheet)
}

#[unsafe(no_mangle)]
pub extern "C" fn strip_lookup(store: &[u8], chain: &[u8], name: &[u8]) -> u64
    ensures { result ≡ packed_lookup (looking_up store.now chain.now name.now) }
{
    strip::strip_lookup(store, chain, name)
}

#[unsafe(no_mangle)]
pub extern "C" fn strip_order(book: &[u8], out: &mut [u8]) -> u64
    ensures { (result, out.new) ≡ order_outcome (listing book.now out.old) }
{
    strip::strip_order(book, out)
}

#[unsafe(no_mangle)]
pub extern "C" fn strip_plane(text: &[u8], sheet: &[u8], out: &mut [u8]) -> u64
    ensures { (result, out.new) ≡ line_outcome (planing text.now sheet.now out.old) }
{
    strip::strip_plane(text, sheet, out)
}

#[unsafe(no_mangle)]
pub extern "C" fn strip_unplane(text: &[u8], planed: &[u8], out: &mut [u8]) -> u64
    ensures { (result, out.new) ≡ line_outcome (unplaning text.now planed.now out.old) }
{
    strip::strip_unplane(text, planed, out)
}

#[unsafe(no_mangle)]
pub extern "C" fn strip_wave(kind: u32, phase: u32, heights: &mut [i16]) -> u64
    ensures { (result, heights.new) ≡ wave_outcome (drawing kind phase heights.old) }
{
    strip::strip_wave(kind, phase, heights)
}
