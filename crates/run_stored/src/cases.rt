// Lines of fields in hexadecimal with tabs between.
ghost use Rattle.std.specs.Prelude.{ℕ, ◌≡◌, ◌+◌, ◌/◌, ◌<◌, ◌≤◌, [], length, slice_index_or, slice_range, vec_len};

use arrayvec::ArrayVec;
use std::alloc::{AllocError, Global};

// More fields than these can't be told apart.
const FIELDS: usize = 4;

// A line as it is read. The bytes that its digits write stand one field behind the other, each from a whole byte on, so that a field with an
// odd number of digits takes half a byte more. What the line before left behind them stays.
#[derive(Drop)]
pub(crate) struct Line {
    bytes: Vec<u8>,
    // How many digits stand in the bytes.
    digits: usize,
    // The digits up to the end of each field that has ended.
    ends: ArrayVec<usize, FIELDS>,
    // Whether all of it is digits, fits the bytes and has no more fields than are kept.
    is_case: bool,
}

impl Line {
    // A line that has not begun, with room for so many bytes.
    pub(crate) fn with_room(alloc: Global, room: usize) -> Result<Line, AllocError> {
        Ok(Line {
            bytes: vec![in alloc; 0; room]?,
            digits: 0,
            ends: ArrayVec::new(),
            is_case: true,
        })
    }

    // Begins a new line.
    pub(crate) fn clear(&mut self) {
        self.digits = 0;
        self.ends.clear();
        self.is_case = true;
    }

    pub(crate) fn is_begun(&self) -> bool {
        self.digits > 0 || !self.ends.is_empty() || !self.is_case
    }

    // Takes a byte of the line: a digit, or a tab behind a field.
    pub(crate) fn push(&mut self, byte: u8) {
        if self.digits / 2 >= self.bytes.len() {
            self.is_case = false;
        } else if byte == b'\t' {
            self.end_field(self.digits.next_multiple_of(2));
        } else {
            match char::from(byte).to_digit(16) {
                Some(digit) => self.push_digit(digit as u8),
                None => self.is_case = false,
            }
        }
    }

    fn push_digit(&mut self, digit: u8)
        requires { self.old.digits / 2 < vec_len self.old.bytes }
    {
        let at = self.digits / 2;
        let byte = &mut self.bytes[at];
        *byte = if self.digits % 2 == 0 {
            digit << 4
        } else {
            *byte & 0xf0 | digit
        };
        self.digits += 1;
    }

    // Ends a field. The next one begins behind so many digits.
    fn end_field(&mut self, next: usize) {
        match self.ends.try_push(self.digits) {
            Ok(()) => self.digits = next,
            Err(_) => self.is_case = false,
        }
    }

    // Ends the line, and gives the case that it is, if it is one.
    pub(crate) fn end(&mut self) -> Option<Case<'_>> {
        self.end_field(0);
        if self.is_case {
            Some(Case {
                bytes: self.bytes.as_slice(),
                ends: self.ends.as_slice(),
            })
        } else {
            None
        }
    }
}

// The fields of a line.
#[derive(Clone, Copy)]
pub struct Case<'a> {
    // What its digits write, and what earlier lines left behind that.
    pub bytes: &'a [u8],
    // The digits up to the end of each field.
    pub ends: &'a [usize],
}

impl<'a> Case<'a> {
    // The first byte that stands in the line; of a line without digits it is one that an earlier line left.
    pub fn first_byte(&self) -> u8
        ensures { result ≡ slice_index_or self.now.bytes.now 0 0 }
    {
        self.bytes.first().copied().unwrap_or(0)
    }

    // The bytes of a field, counted from 0; none if there is no such field. A digit too many is no byte.
    pub fn field(&self, i: usize) -> &'a [u8]
        ensures first { i ≡ 0 → slice_index_or self.now.ends.now 0 0 / 2 ≤ length self.now.bytes.now →
            result.now ≡ slice_range self.now.bytes.now 0 (slice_index_or self.now.ends.now 0 0 / 2) }
        ensures later { (k : ℕ) → i ≡ k + 1 →
            (slice_index_or self.now.ends.now k 0 + 1) / 2 ≤ slice_index_or self.now.ends.now i 0 / 2 →
            slice_index_or self.now.ends.now i 0 / 2 ≤ length self.now.bytes.now →
            result.now ≡ slice_range self.now.bytes.now
            ((slice_index_or self.now.ends.now k 0 + 1) / 2) (slice_index_or self.now.ends.now i 0 / 2) }
        ensures missing { slice_index_or self.now.ends.now i 0 ≡ 0 → result.now ≡ [] }
    {
        let start = match i.checked_sub(1) {
            Some(before) => self.end(before).div_ceil(2),
            None => 0,
        };
        self.bytes.get(start..self.end(i) / 2).unwrap_or(&[])
    }

    fn end(&self, i: usize) -> usize
        ensures { result ≡ slice_index_or self.now.ends.now i 0 }
    {
        self.ends.get(i).copied().unwrap_or(0)
    }

    // The number that the first field writes in decimal; of more than six digits the last ones count.
    pub fn first_decimal(&self) -> usize {
        let digits = self
            .bytes
            .iter()
            .flat_map(|b| [b >> 4, b & 15])
            .take(self.end(0));
        digits.fold(0, |n, digit| n % 100_000 * 10 + usize::from(digit))
    }
}
