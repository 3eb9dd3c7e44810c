// What the program prints, put on a page that is lent: words and numbers, the lines of all records. For our own crates.
#![tactic(auto)]

ghost use Rattle.text.specs.WriteMeans.{Puts};
ghost use Rattle.script.specs.Output.{decimal_out, accept, refusal};
ghost use Rattle.page.specs.Means.{Lines};

use error::Refusal;
use sheet_decode::fields::take_field;
use sheet_records::take_record;

// The output that the program lends for a line.
const LINE_BYTES: usize = 65536;

// ---- words and numbers

// Writes some bytes at a place, as far as there is room, and gives the place behind them.
fn put_word(out: &mut [u8], at: usize, word: &[u8]) -> usize
    ensures { Puts out.old at word.now out.new result }
{
    let mut end = at;
    for &b in word {
        end = text::put(out, end, b);
    }
    end
}

// Writes a number in decimal, at most so many digits.
fn put_decimal(out: &mut [u8], at: usize, digits: usize, n: usize) -> usize
    ensures { Puts out.old at (decimal_out digits n) out.new result }
{
    if digits == 0 {
        return at;
    }
    if n < 10 {
        return text::put(out, at, 48 + n as u8);
    }
    let end = put_decimal(out, at, digits - 1, n / 10);
    text::put(out, end, 48 + (n % 10) as u8)
}

// Writes `accept N` so.
fn put_accept(out: &mut [u8], at: usize, n: usize) -> usize
    ensures { Puts out.old at (accept n) out.new result }
{
    let number = put_word(out, at, b"accept ");
    let end = put_decimal(out, number, 10, n);
    text::put(out, end, b'\n')
}

// Writes `refuse R at P` so.
pub fn put_refusal(out: &mut [u8], at: usize, cause: Refusal, place: usize) -> usize
    ensures { Puts out.old at (refusal cause place) out.new result }
{
    let number = put_word(out, at, b"refuse ");
    let word = put_decimal(out, number, 10, error::number_of(cause) as usize);
    let from = put_word(out, word, b" at ");
    let end = put_decimal(out, from, 10, place);
    text::put(out, end, b'\n')
}

// ---- the page

// Writes the line of each record of a sheet at the front, one behind the other, then `accept N`; or, at the first record whose line the
// program has no room for, the refusal. Gives the place behind. The sheet is walked once.
pub fn put_lines(sheet: &[u8], text_len: usize, count: usize, page: &mut [u8]) -> usize
    ensures { Lines text_len sheet.now count page.old page.new result }
{
    let head = take_field(sheet, 0, 2);
    let mut start: usize = 0;
    let mut end = head.next;
    let mut ordinal: usize = 0;
    let mut at: usize = 0;
    loop {
        if !line::has_room(LINE_BYTES, end - start) {
            return put_refusal(page, at, Refusal::OutputTooShort, ordinal);
        }
        at = line::put_line(page, at, text::part(sheet, start, end - start));
        if sheet.len() <= end {
            return put_accept(page, at, count);
        }
        start = end;
        let next = take_record(sheet, start, text_len);
        end = next.next;
        ordinal += 1;
    }
}
