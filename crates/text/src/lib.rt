// Bytes of a text, parts of it, and words: what the other crates share. Each function answers for any numbers.
#![tactic(auto)]

ghost use Rattle.std.specs.Prelude.{◌+◌, [], ◌∷◌, ◌≡◌, drop};
ghost use Rattle.text.specs.Bytes.{within, one_of, is_upper, is_letter, is_name, is_blank, is_inside, is_hex, is_foreign, same, run, at, part, lower, lowered};
ghost use Rattle.text.specs.Words.{find, table, is_some};
ghost use Rattle.text.specs.Means.{passes, place_of};
ghost use Rattle.text.specs.WriteMeans.{Puts};

// The bytes that a text may have.
pub const TEXT_LIMIT: usize = 16384;

// The digits that a number may have before its point, after it, and in its exponent.
pub const WHOLE_LIMIT: u16 = 40;

pub const PLACES_LIMIT: u16 = 40;

pub const POWER_LIMIT: u16 = 2;

// A class of bytes.
#[derive(Clone, Copy, Debug, PartialEq, Eq)]
pub enum Class {
    Blank,
    Digit,
    // What a name begins with.
    Letter,
    NameByte,
    // What may stand in a string.
    Inside,
    Hex,
    // What no script holds, in strings or outside.
    Foreign,
}

// ---- classes of bytes

// Whether b is one of some bytes.
pub fn has(set: &[u8], b: u8) -> bool
    ensures { result ≡ one_of set.now b }
{
    set.iter().any(|&c| b == c)
}

// Whether b lies between two bytes. A branch for each test: with std's `is_ascii_*` the tests are joined, and reading takes more time.
fn between(lo: u8, hi: u8, b: u8) -> bool
    ensures { result ≡ within lo hi b }
{
    if lo <= b { b <= hi } else { false }
}

pub fn is_upper(b: u8) -> bool
    ensures { result ≡ is_upper b }
{
    between(b'A', b'Z', b)
}

fn is_letter(b: u8) -> bool
    ensures { result ≡ is_letter b }
{
    if between(b'a', b'z', b) {
        return true;
    }
    if is_upper(b) {
        return true;
    }
    b == b'_'
}

fn is_name(b: u8) -> bool
    ensures { result ≡ is_name b }
{
    if is_letter(b) {
        return true;
    }
    between(b'0', b'9', b)
}

// Joined with `|`, which takes less time here than a `matches!`.
#[tactic(auto, unfolding(crate::specs::Bytes::one_of))]
fn is_blank(b: u8) -> bool
    ensures { result ≡ is_blank b }
{
    (b == b' ') | (b == b'\t') | (b == b'\n') | (b == b'\r')
}

#[tactic(auto, unfolding(crate::specs::Bytes::one_of))]
fn is_inside(b: u8) -> bool
    ensures { result ≡ is_inside b }
{
    if between(b' ', b'~', b) {
        return (b != b'"') & (b != b'\\');
    }
    false
}

#[tactic(auto, unfolding(crate::specs::Bytes::one_of))]
fn is_hex(b: u8) -> bool
    ensures { result ≡ is_hex b }
{
    b.is_ascii_hexdigit()
}

#[tactic(auto, unfolding(crate::specs::Bytes::one_of))]
fn is_foreign(b: u8) -> bool
    ensures { result ≡ is_foreign b }
{
    !matches!(b, b' '..=b'~' | b'\t' | b'\n' | b'\r')
}

// Whether b is of the class k.
pub fn in_class(k: Class, b: u8) -> bool
    ensures { result ≡ passes k b }
{
    match k {
        Class::Blank => is_blank(b),
        Class::Digit => between(b'0', b'9', b),
        Class::Letter => is_letter(b),
        Class::NameByte => is_name(b),
        Class::Inside => is_inside(b),
        Class::Hex => is_hex(b),
        Class::Foreign => is_foreign(b),
    }
}

// A capital as its small letter, each other byte as it is.
pub fn lower(b: u8) -> u8
    ensures { result ≡ lower b }
{
    b.to_ascii_lowercase()
}

// ---- places and parts of a text

// The byte at a place, and 0 past the end.
pub fn byte_at(text: &[u8], i: usize) -> u8
    ensures { result ≡ at text.now i }
{
    text.get(i).copied().unwrap_or(0)
}

// The end of the run of bytes of class k that begins at `from`. Each token is cut by it: `position` over the rest of the text takes more
// instructions.
pub fn run_end(text: &[u8], from: usize, k: Class) -> usize
    ensures { result ≡ from + run (passes k) (drop from text.now) }
{
    let mut i = from;
    while i < text.len() {
        if !in_class(k, text[i]) {
            return i;
        }
        i += 1;
    }
    i
}

// The bytes of a text from a start, of a size, as far as there are any.
pub fn part(text: &[u8], start: usize, size: usize) -> &[u8]
    ensures { result.now ≡ part text.now start size }
{
    let rest = &text[start.min(text.len())..];
    &rest[..size.min(rest.len())]
}

// ---- words

// Whether two words are equal.
pub fn is_word(w: &[u8], word: &[u8]) -> bool
    ensures { result ≡ same w.now word.now }
{
    w == word
}

// The place of a word among the words of a table, each of which stands behind a byte that is its length.
pub fn find(names: &[u8], word: &[u8]) -> Option<usize>
    ensures { place_of result ≡ find (table names.now) 0 word.now }
{
    let mut rest = names;
    let mut i = 0;
    while let Some((&size, behind)) = rest.split_first() {
        let size = usize::from(size);
        if word == part(behind, 0, size) {
            return Some(i);
        }
        rest = part(behind, size, behind.len());
        i += 1;
    }
    None
}

// Whether a word is in a table.
pub fn is_listed(names: &[u8], word: &[u8]) -> bool
    ensures { result ≡ is_some (find (table names.now) 0 word.now) }
{
    find(names, word).is_some()
}

// ---- writing

// Writes a byte at a place, where there is room, and gives the place behind it.
pub fn put(out: &mut [u8], at: usize, b: u8) -> usize
    ensures { Puts out.old at (b ∷ []) out.new result }
{
    if at < out.len() {
        out[at] = b;
        return at + 1;
    }
    at
}

// Writes a word with its capitals as small letters, as far as there is room, and gives how many bytes were written.
pub fn lower_into(w: &[u8], out: &mut [u8]) -> usize
    ensures { Puts out.old 0 (lowered w.now) out.new result }
{
    let n = w.len().min(out.len());
    for i in 0..n {
        out[i] = lower(w[i]);
    }
    n
}
