// Lining: a record of a sheet as a line of hexadecimal.
#![tactic(auto)]

ghost use Rattle.std.specs.Prelude.{◌≡◌, ◌+◌, ◌*◌, ◌%◌, ◌<◌, ◌≤◌, [], ◌∷◌, length, nat_le};
ghost use Rattle.text.specs.WriteMeans.{Puts};
ghost use Rattle.lining.specs.Line.{digit, hex, total, check_byte, line};
ghost use Rattle.error.specs.Answer.{line_values};
ghost use Rattle.lining.specs.Lining.{placed, lining};

use error::{LineAnswer, Refusal};
use sheet_records::RecordAt;
use sheet_refusals::{Opening, open_text};

// ---- the check byte

// The sum of a part's bytes onto one so far, modulo 256.
fn total(before: u8, part: &[u8]) -> u8
    ensures { result ≡ (before + total part.now) % 256 }
{
    let mut sum = before;
    for &b in part {
        sum = sum.wrapping_add(b);
    }
    sum
}

// The byte with which the two bytes of a record's length and the record's bytes sum to zero modulo 256.
fn check_byte(bytes: &[u8]) -> u8
    ensures { result ≡ check_byte bytes.now }
{
    let n = bytes.len();
    let length = ((n / 256 % 256) as u8).wrapping_add((n % 256) as u8);
    0u8.wrapping_sub(total(length, bytes))
}

// ---- writing

// A digit of hexadecimal, a capital from ten on.
fn digit(n: u8) -> u8
    requires { n < 16 }
    ensures { result ≡ digit n }
{
    if n < 10 { 48 + n } else { 55 + n }
}

// Writes a byte as two digits at a place, and gives the place behind them.
fn put_byte(out: &mut [u8], at: usize, b: u8) -> usize
    ensures { Puts out.old at (hex (b ∷ [])) out.new result }
{
    let next = text::put(out, at, digit(b / 16));
    text::put(out, next, digit(b % 16))
}

// Writes some bytes so, as far as there is room.
fn put_clipped(out: &mut [u8], at: usize, bytes: &[u8]) -> usize
    ensures { Puts out.old at (hex bytes.now) out.new result }
{
    let mut end = at;
    for &b in bytes {
        end = put_byte(out, end, b);
    }
    end
}

// The same where there is room for all of them, so that the loop is made into vectors.
fn put_whole(out: &mut [u8], at: usize, bytes: &[u8])
    requires { at + 2 * length bytes.now ≤ length out.old }
    ensures { Puts out.old at (hex bytes.now) out.new (at + 2 * length bytes.now) }
{
    for (i, &b) in bytes.iter().enumerate() {
        let high = at + 2 * i;
        out[high] = digit(b / 16);
        out[high + 1] = digit(b % 16);
    }
}

// Writes some bytes so.
fn put_bytes(out: &mut [u8], at: usize, bytes: &[u8]) -> usize
    ensures { Puts out.old at (hex bytes.now) out.new result }
{
    let n = bytes.len();
    if out.len() < at {
        return at;
    }
    if (out.len() - at) / 2 < n {
        return put_clipped(out, at, bytes);
    }
    put_whole(out, at, bytes);
    at + 2 * n
}

// Writes a record's line at a place, as far as there is room, and gives the place behind it.
pub fn put_line(out: &mut [u8], at: usize, bytes: &[u8]) -> usize
    ensures { Puts out.old at (line bytes.now) out.new result }
{
    let n = bytes.len();
    let high = put_byte(out, at, (n / 256 % 256) as u8);
    let low = put_byte(out, high, (n % 256) as u8);
    let body = put_bytes(out, low, bytes);
    let end = put_byte(out, body, check_byte(bytes));
    text::put(out, end, b'\n')
}

// ---- lining

// Whether an output of so many bytes has room for the line of a record of n bytes, which takes 2n + 7.
pub fn has_room(room: usize, n: usize) -> bool
    ensures { result ≡ nat_le (2 * n + 7) room }
{
    7 <= room && n <= (room - 7) / 2
}

// Writes a record's line if there is room for it.
fn place_line(bytes: &[u8], ordinal: usize, out: &mut [u8]) -> LineAnswer
    ensures { (result, out.new) ≡ placed ordinal out.old (line bytes.now) }
{
    if has_room(out.len(), bytes.len()) {
        return LineAnswer::Accepted {
            length: put_line(out, 0, bytes),
        };
    }
    LineAnswer::Refused {
        refusal: Refusal::OutputTooShort,
        place: ordinal,
    }
}

// The line of the record with an ordinal, the head being 0, or a refusal and its place.
pub fn line(text: &[u8], sheet: &[u8], ordinal: usize, out: &mut [u8]) -> LineAnswer
    ensures out_after { (result, out.new) ≡ lining text.now sheet.now ordinal out.old }
    ensures values { line_values result ≡ line_values (lining text.now sheet.now ordinal out.old).0 }
{
    if let Opening::Shut { refusal, place } = open_text(text) {
        return LineAnswer::Refused { refusal, place };
    }
    match sheet_records::find_record(sheet, text.len(), ordinal) {
        RecordAt::At { start, size } => place_line(text::part(sheet, start, size), ordinal, out),
        RecordAt::Nothing => LineAnswer::Refused {
            refusal: Refusal::NoSuchRecord,
            place: ordinal,
        },
        RecordAt::NoSheet => LineAnswer::Refused {
            refusal: Refusal::NotASheet,
            place: 0,
        },
    }
}
