// 02 (f): the pieces of a fresh script, put into a lent buffer one after the other, a blank behind each. Nothing is written past the
// buffer or past a script's limit; where there are more bytes, or a piece that no text can have, only that is kept. For our own crates.
#![tactic(auto)]

ghost use Rattle.std.specs.Prelude.{◌≡◌, true, cond, not, ◌&&◌, List, [], ◌∷◌, ℕ, suc, ◌+◌, ◌-◌, ◌/◌, ◌<◌, ◌^◌, leb, length, map, IfSome};
ghost use Rattle.std.proofs.lemmas.List.Edits.{sets};
ghost use Rattle.text.specs.Limits.{whole_limit};
ghost use Rattle.text.specs.Means.{passes};
ghost use Rattle.text.specs.Words.{is_some, find, is_one_of};
ghost use Rattle.digits.specs.Numeral.{float, percentage, counted, all, fraction};
ghost use Rattle.digits.specs.Fewest.{whole_digits, last_digits};
ghost use Rattle.pieces.specs.Pieces.{a_word, a_name, a_plain, a_string, a_mark, a_pair, a_numeral, word_like, name_like, curve_names, known_mark, plain_mark};
ghost use Rattle.back_spelling.specs.Means.{most, spoil, page, put_on, page_of, Puts, Spellable, Below, Large, put_number};
ghost use Rattle.digits.specs.AnswerMeans.{whole_number, number_of, Neat};

use digits::Decimal;
use text::Class;

// A script's limit, and the blank behind its last piece.
pub const MOST: usize = 16385;

// The words that begin an easing with parentheses.
const CURVES: [&str; 5] = ["cubic_bezier", "steps", "wiggle", "rough", "slowmo"];

// Where a writer stands: how many bytes are written, more than MOST where there were too many; and whether a text can have every
// piece so far.
#[derive(Clone, Copy)]
pub struct Pen {
    pub at: usize,
    pub fits: bool,
}

// A writer on a lent buffer, and where it stands.
#[derive(Drop)]
pub struct PieceWriter<'a> {
    pub out: &'a mut [u8],
    pub pen: Pen,
}

// Writes bytes from a place on, as far as the buffer goes.
fn copy(out: &mut [u8], at: usize, part: &[u8])
    requires { at + length part.now < 2 ^ 34 }
    ensures { out.new ≡ sets out.old at part.now }
{
    for (i, b) in part.iter().enumerate() {
        text::put(out, at + i, *b);
    }
}

// Whether all bytes are of a class.
fn all_are(part: &[u8], k: Class) -> bool
    ensures { result ≡ all (passes k) part.now }
{
    text::run_end(part, 0, k) == part.len()
}

// Whether a word is a name, and no keyword.
fn is_name_like(word: &[u8]) -> bool
    ensures { result ≡ name_like word.now }
{
    if !text::in_class(Class::Letter, text::byte_at(word, 0)) {
        return false;
    }
    if !all_are(word, Class::NameByte) {
        return false;
    }
    !keywords::is_keyword(word)
}

// Whether a word is one of some names.
fn is_among(names: &[&str], word: &[u8]) -> bool
    ensures { result ≡ is_some (find (map (λ name. name.now) names.now) 0 word.now) }
{
    names
        .iter()
        .any(|name| text::is_word(word, name.as_bytes()))
}

// Whether a word begins an easing with parentheses.
fn is_curve(word: &[u8]) -> bool
    ensures { result ≡ is_one_of curve_names word.now }
{
    is_among(&CURVES, word)
}

// Whether a word is the name of an easing without `Easing::`.
fn is_plain(word: &[u8]) -> bool
    ensures { result ≡ (name_like word.now && not (is_one_of curve_names word.now)) }
{
    if is_curve(word) {
        return false;
    }
    is_name_like(word)
}

impl<'a> PieceWriter<'a> {
    // A writer at the start of a buffer.
    pub fn new(out: &'a mut [u8]) -> Self
        ensures same_buffer { result.out.ghost_name ≡ out.entry.ghost_name }
        ensures page { page_of result ≡ page out.entry.ghost_name out.old 0 }
    {
        PieceWriter {
            out,
            pen: Pen { at: 0, fits: true },
        }
    }

    // ---- bytes

    // Whether so many bytes more may be written.
    fn has_room(&self, n: usize) -> bool
        ensures { result ≡ leb (self.now.pen.at + n) most }
    {
        n <= MOST && self.pen.at <= MOST - n
    }

    fn put_bytes(&mut self, part: &[u8])
        ensures { page_of self.new ≡ put_on part.now (page_of self.old) }
    {
        if self.has_room(part.len()) {
            copy(self.out, self.pen.at, part);
            self.pen.at += part.len();
        } else {
            self.pen.at = MOST + 1;
        }
    }

    fn put_byte(&mut self, b: u8)
        ensures { page_of self.new ≡ put_on (b ∷ []) (page_of self.old) }
    {
        if self.pen.at < MOST {
            text::put(self.out, self.pen.at, b);
            self.pen.at += 1;
        } else {
            self.pen.at = MOST + 1;
        }
    }

    // A piece's bytes, and the blank behind it.
    fn put_piece(&mut self, part: &[u8])
        ensures { page_of self.new ≡ put_on (32 ∷ []) (put_on part.now (page_of self.old)) }
    {
        self.put_bytes(part);
        self.put_byte(b' ');
    }

    // What is known of a piece that was put.
    fn judge(&mut self, fits: bool)
        ensures { page_of self.new ≡ cond fits (page_of self.old) (spoil (page_of self.old)) }
    {
        if !fits {
            self.pen.fits = false;
        }
    }

    // ---- pieces

    // A word of the grammar.
    pub fn put_word(&mut self, word: &[u8])
        requires { word_like word.now ≡ true }
        ensures { Puts (a_word word.now) self.old self.new }
    {
        self.put_piece(word);
    }

    // A mark.
    pub fn put_mark(&mut self, b: u8)
        requires { known_mark b ≡ true }
        ensures { Puts (a_mark b) self.old self.new }
    {
        self.put_byte(b);
        self.put_byte(b' ');
    }

    // Two marks with nothing between them.
    pub fn put_pair(&mut self, b: u8, c: u8)
        requires { (plain_mark b ≡ true) × (plain_mark c ≡ true) }
        ensures { Puts (a_pair b c) self.old self.new }
    {
        self.put_byte(b);
        self.put_byte(c);
        self.put_byte(b' ');
    }

    // A name of the tree.
    pub fn put_name(&mut self, name: &[u8])
        ensures { Puts (a_name name.now) self.old self.new }
    {
        self.put_piece(name);
        self.judge(is_name_like(name));
    }

    // The name of an easing without `Easing::`.
    pub fn put_plain(&mut self, name: &[u8])
        ensures { Puts (a_plain name.now) self.old self.new }
    {
        self.put_piece(name);
        self.judge(is_plain(name));
    }

    // A string, in its quotes.
    pub fn put_string(&mut self, inside: &[u8])
        ensures { Puts (a_string inside.now) self.old self.new }
    {
        self.put_byte(b'"');
        self.put_bytes(inside);
        self.put_byte(b'"');
        self.put_byte(b' ');
        self.judge(all_are(inside, Class::Inside));
    }

    // ---- numbers

    // All digits of a number, with no zero before the first.
    fn put_whole(&mut self, n: u64)
        ensures { (k : ℕ) → n < 10 ^ suc k → page_of self.new ≡ put_on (whole_digits k n) (page_of self.old) }
    {
        if n < 10 {
            return self.put_byte(b'0' + n as u8);
        }
        self.put_whole(n / 10);
        self.put_byte(b'0' + (n % 10) as u8);
    }

    // The last k digits of a number.
    fn put_last(&mut self, k: usize, n: u64)
        ensures { page_of self.new ≡ put_on (last_digits k n) (page_of self.old) }
    {
        if k == 0 {
            return;
        }
        self.put_last(k - 1, n / 10);
        self.put_byte(b'0' + (n % 10) as u8);
    }

    // The point and the digits behind it, if there are any.
    fn put_fraction(&mut self, places: usize, n: u64)
        ensures { page_of self.new ≡ put_on (fraction (last_digits places n)) (page_of self.old) }
    {
        if places == 0 {
            return;
        }
        self.put_byte(b'.');
        self.put_last(places, n);
    }

    // A whole number of up to 39 digits.
    fn put_large(&mut self, d: Decimal)
        requires { Large d }
        ensures { page_of self.new ≡ put_on (whole_digits (whole_limit - 1) (whole_number d)) (page_of self.old) }
    {
        if d.high == 0 {
            self.put_whole(d.middle);
            return self.put_last(18, d.n);
        }
        self.put_whole(d.high);
        self.put_last(18, d.middle);
        self.put_last(18, d.n);
    }

    // The digits before the point: with more than 9 places a zero.
    fn put_front(&mut self, d: Decimal)
        requires { Neat d × Below d }
        ensures { page_of self.new ≡ put_on (whole_digits (whole_limit - 1) (whole_number d / 10 ^ d.places)) (page_of self.old) }
    {
        if 9 < d.places {
            return self.put_whole(0);
        }
        if d.middle == 0 && d.high == 0 {
            return self.put_whole(d.n / number::ten_to(d.places));
        }
        self.put_large(d);
    }

    // A number as it is written, if there is one.
    fn put_decimal(&mut self, number: Option<Decimal>)
        requires { Spellable (number_of number) × IfSome number Neat }
        ensures { page_of self.new ≡ put_number (number_of number) (page_of self.old) }
    {
        match number {
            None => self.pen.fits = false,
            Some(d) => {
                self.put_front(d);
                self.put_fraction(d.places, d.n);
                self.put_byte(b' ');
            }
        }
    }

    // An f32 without sign, by its bits.
    pub fn put_float(&mut self, bits: u32)
        ensures { Puts (a_numeral float bits) self.old self.new }
    {
        self.put_decimal(digits::fewest(bits));
    }

    // A percent without sign, by its bits.
    pub fn put_percent(&mut self, bits: u32)
        ensures { Puts (a_numeral percentage bits) self.old self.new }
    {
        self.put_decimal(digits::percent_of(bits));
    }

    // A whole number.
    pub fn put_count(&mut self, n: u32)
        ensures { Puts (a_numeral counted n) self.old self.new }
    {
        self.put_whole(u64::from(n));
        self.put_byte(b' ');
    }
}
