// Tokens of a text: the size of the one that a text begins with, and the blanks before one; the pass that judges a whole text by the text
// rules. For our own crates: a text of at most the limit is required, and of what is made of a number that it stands where it was found.
// A place in a text, a size and a depth have 16 bits, but where a public function takes or gives one. What is given as a usize is narrowed
// at once, and an index is widened where it stands.
#![tactic(auto)]

ghost use Rattle.std.specs.Prelude.{◌≡◌, true, false, not, ◌||◌, List, ℕ, ◌+◌, ◌*◌, ◌-◌, ◌^◌, ◌≤◌, ◌<◌, length, take, drop, replicate};
ghost use Rattle.number.specs.Number.{nearest, percent};
ghost use Rattle.number.specs.Means.{Capped};
ghost use Rattle.limbs.specs.Means.{Nearest};
ghost use Rattle.number.specs.Rounded.{fraction, rounded, number_rounded};
ghost use Rattle.text.specs.Limits.{text_limit};
ghost use Rattle.text.specs.Bytes.{run, part, among, decimal, is_digit, is_blank};
ghost use Rattle.token.specs.Token.{name_at, point_at, past_fraction, suffix_at, past_suffix, clings, places_of, power_from, power_digits, power_size, past_power, number_at, quoted_at, written_at, bad, lexeme};
ghost use Rattle.token.specs.Split.{closer, closed, nest_mark, nest, split};
ghost use Rattle.token.specs.Means.{kind_of, Digits, NumberIs, FiguresAre, RunIs, FractionIs, written_in, Known, lexeme_size, kind_from, held, after_opener, DepthMeans, answer_of, wide_answer, answer_from, TurnMeans, split_outcome, splitting};
ghost use Rattle.error.specs.declared.Refusal.{Refusal};

use error::Refusal;
use number::{Bits, Stored};
use text::Class;

// A written number at a place: digits / 10^places, unless it is long; `point` says that a point or an exponent is written. A long one is
// made of the text where it is wanted, and has here its whole number up to 4,294,967,295, or one above that.
#[derive(Clone, Copy)]
pub struct Number {
    pub digits: u64,
    pub places: usize,
    pub at: u16,
    pub point: bool,
    pub suffix: bool,
    pub long: bool,
}

// What a token is. Mark 0 is the end.
#[derive(Clone, Copy)]
pub enum Tok {
    Name,
    Num,
    Quoted,
    Mark(u8),
}

// ---- the token that a text begins with: its size, and 0 where none can be cut

pub fn name_size(t: &[u8]) -> u16
    requires { length t.now ≤ text_limit }
    ensures { result ≡ lexeme_size (name_at t.now) }
{
    let n = text::run_end(t, 0, Class::NameByte) as u16;
    if text::byte_at(t, n as usize) == b'"' {
        return 0;
    }
    n
}

pub fn quoted_size(t: &[u8]) -> u16
    requires { length t.now ≤ text_limit }
    ensures { result ≡ lexeme_size (quoted_at t.now) }
{
    let e = text::run_end(t, 1, Class::Inside) as u16;
    if text::byte_at(t, e as usize) == b'"' {
        let n = e + 1;
        if text::in_class(Class::NameByte, text::byte_at(t, n as usize)) {
            return 0;
        }
        return n;
    }
    0
}

// Whether a point and a digit stand at w.
fn has_point(t: &[u8], w: u16) -> bool
    ensures { result ≡ point_at t.now w }
{
    text::byte_at(t, w as usize) == b'.'
        && text::in_class(Class::Digit, text::byte_at(t, w as usize + 1))
}

// The end of the digits, of which w stand before the point, if there is one.
fn past_fraction(t: &[u8], w: u16, point: bool) -> u16
    requires { (point ≡ point_at t.now w) × (past_fraction point t.now w ≤ text_limit) }
    ensures { result ≡ past_fraction point t.now w }
{
    if point {
        return text::run_end(t, w as usize + 1, Class::Digit) as u16;
    }
    w
}

// Where the digits of an exponent at n begin.
fn power_from(t: &[u8], n: u16) -> u16
    requires { n ≤ text_limit }
    ensures { result ≡ power_from t.now n }
{
    let b = text::byte_at(t, n as usize + 1);
    if (b == b'+') | (b == b'-') {
        return n + 2;
    }
    n + 1
}

// How many digits of an exponent stand at m.
fn power_digits(t: &[u8], m: u16) -> u16
    ensures { result ≡ power_digits t.now m }
{
    let n = text::run_end(t, m as usize, Class::Digit) - m as usize;
    if (text::POWER_LIMIT as usize) < n {
        return text::POWER_LIMIT;
    }
    n as u16
}

// How many digits an exponent at n has; 0 where there is none.
fn power_size(t: &[u8], n: u16) -> u16
    requires { n ≤ text_limit }
    ensures { result ≡ power_size t.now n }
{
    let b = text::byte_at(t, n as usize);
    if (b == b'e') | (b == b'E') {
        return power_digits(t, power_from(t, n));
    }
    0
}

// The place behind an exponent at n with so many digits.
fn past_power(t: &[u8], n: u16, size: u16) -> u16
    requires { (n ≤ text_limit) × (size ≤ 2) }
    ensures { result ≡ past_power t.now n size }
{
    if size == 0 {
        return n;
    }
    power_from(t, n) + size
}

fn has_suffix(t: &[u8], end: u16) -> bool
    ensures { result ≡ suffix_at t.now end }
{
    text::byte_at(t, end as usize) == b's'
}

// The place behind a number whose digits end at `end`.
fn past_suffix(t: &[u8], suffix: bool, end: u16) -> u16
    requires { (suffix ≡ suffix_at t.now end) × (end ≤ text_limit) }
    ensures { result ≡ past_suffix suffix end }
{
    if suffix {
        return end + 1;
    }
    end
}

// How many digits stand after the point.
fn places_of(point: bool, w: u16, end: u16) -> u16
    ensures { result ≡ places_of point w end }
{
    if point {
        if w < end {
            return end - w - 1;
        }
        return 0;
    }
    0
}

// Whether something stands at n that may not follow a number.
fn clinging(t: &[u8], point: bool, suffix: bool, n: u16) -> bool
    ensures { result ≡ clings t.now (not (point || suffix)) n }
{
    if text::in_class(Class::NameByte, text::byte_at(t, n as usize)) {
        return true;
    }
    if point {
        return false;
    }
    if suffix {
        return false;
    }
    if text::byte_at(t, n as usize) == b'.' {
        return text::byte_at(t, n as usize + 1) != b'.';
    }
    false
}

// Digits, onto a number below 10^(19 - n), n being their count.
fn value(seed: u64, digits: &[u8]) -> u64
    requires { (length digits.now ≤ run is_digit digits.now) × (seed < 10 ^ (19 - length digits.now)) × (length digits.now ≤ 19) }
    ensures { result ≡ decimal seed digits.now }
{
    let mut v = seed;
    for b in digits {
        v = v * 10 + u64::from(b - b'0');
    }
    v
}

// Most often only digits stand in a number.
pub fn number_size(t: &[u8]) -> u16
    requires { length t.now ≤ text_limit }
    ensures { result ≡ lexeme_size (number_at t.now) }
{
    let w = text::run_end(t, 0, Class::Digit) as u16;
    let b = text::byte_at(t, w as usize);
    if (b == b'.') | text::in_class(Class::NameByte, b) | (text::WHOLE_LIMIT < w) {
        return written_size(t, w);
    }
    w
}

// A number with w digits before its point.
fn written_size(t: &[u8], w: u16) -> u16
    requires { (length t.now ≤ text_limit) × (w ≡ run is_digit t.now) }
    ensures { result ≡ lexeme_size (number_at t.now) }
{
    let point = has_point(t, w);
    let end = past_fraction(t, w, point);
    let power = power_size(t, end);
    let stop = past_power(t, end, power);
    let suffix = has_suffix(t, stop);
    let n = past_suffix(t, suffix, stop);
    let places = places_of(point, w, end);
    let many = (text::WHOLE_LIMIT < w) | (text::PLACES_LIMIT < places);
    if many | clinging(t, point | (0 < power), suffix, n) {
        return 0;
    }
    n
}

// v and a digit behind it, unless v is above 4,294,967,295.
fn grown(v: u64, d: u64) -> u64
    requires { d ≤ 9 }
    ensures { (v ≤ 4294967295 → result ≡ v * 10 + d) × (4294967295 < v → result ≡ v) }
{
    if v <= 4294967295 {
        return v * 10 + d;
    }
    v
}

// The number of some digits, up to 4,294,967,295, or a number above that where they are more.
fn capped(digits: &[u8]) -> u64
    requires { length digits.now ≤ run is_digit digits.now }
    ensures { Capped result (decimal 0 digits.now) }
{
    let mut v = 0;
    for b in digits {
        v = grown(v, u64::from(b - b'0'));
    }
    v
}

// A number's digits: w from its start on, q more from `from` on, over 10^q; and the exponent, up or down.
#[derive(Clone, Copy)]
struct Figures {
    w: u16,
    from: u16,
    q: u16,
    up: u16,
    down: u16,
}

// The number of an exponent at n with so many digits.
fn power_of(t: &[u8], n: u16, size: u16) -> u16
    requires { (n ≤ text_limit) × (size ≡ power_size t.now n) }
    ensures { result ≡ decimal 0 (part t.now (power_from t.now n) size) }
{
    if size == 0 {
        return 0;
    }
    value(0, text::part(t, power_from(t, n) as usize, size as usize)) as u16
}

fn figures_of(t: &[u8]) -> Figures
    requires { Digits t.now }
    ensures { FiguresAre t.now result }
{
    let w = text::run_end(t, 0, Class::Digit) as u16;
    let point = has_point(t, w);
    let end = past_fraction(t, w, point);
    let power = power_size(t, end);
    let q = places_of(point, w, end);
    let from = end - q;
    let e = power_of(t, end, power);
    if text::byte_at(t, end as usize + 1) == b'-' {
        return Figures {
            w,
            from,
            q,
            up: 0,
            down: e,
        };
    }
    Figures {
        w,
        from,
        q,
        up: e,
        down: 0,
    }
}

// A number that is no short one: multiplied out where the digits fit in 64 bits, or long.
fn stretched(t: &[u8], at: u16, point: bool, suffix: bool) -> Number
    requires { Digits t.now × (point ≡ (written_at t.now).point) × (suffix ≡ (written_at t.now).suffix) }
    ensures { (result.at ≡ at) × NumberIs t.now result }
{
    let d = figures_of(t);
    let places = d.q + d.down;
    if (d.up <= 9) & (d.w + d.q + d.up <= 19) & (places <= 9) {
        let whole = value(0, text::part(t, 0, d.w as usize));
        let all = value(whole, text::part(t, d.from as usize, d.q as usize));
        let digits = all * number::ten_to(d.up as usize);
        return Number {
            digits,
            places: places as usize,
            at,
            point,
            suffix,
            long: false,
        };
    }
    Number {
        digits: capped(text::part(t, 0, d.w as usize)),
        places: 0,
        at,
        point,
        suffix,
        long: true,
    }
}

// Digits read onto a number, and the place behind them.
#[derive(Clone, Copy)]
struct Run {
    value: u64,
    end: u16,
}

// The digits from a place on, at most so many, read onto a number below 10^(19 - most).
fn digits_from(t: &[u8], seed: u64, from: u16, most: u16) -> Run
    requires { (from ≤ text_limit) × (most ≤ 19) × (seed < 10 ^ (19 - most)) }
    ensures { RunIs t.now seed from most result }
{
    let stop = from + most;
    let mut value = seed;
    for i in from..stop {
        let b = text::byte_at(t, i as usize);
        if !text::in_class(Class::Digit, b) {
            return Run { value, end: i };
        }
        value = value * 10 + (b - b'0') as u64;
    }
    Run { value, end: stop }
}

// The digits before a point, if there is one, and those behind it.
fn fraction_from(t: &[u8], whole: Run, point: bool) -> Run
    requires { RunIs t.now 0 0 10 whole }
    ensures { FractionIs t.now whole point result }
{
    if point {
        let from = whole.end + 1;
        return digits_from(t, whole.value, from, 9);
    }
    whole
}

// The number that a text begins with, of any digits and with an exponent or not.
fn wide_number_of(t: &[u8], at: u16) -> Number
    requires { Digits t.now }
    ensures { (result.at ≡ at) × NumberIs t.now result }
{
    let w = text::run_end(t, 0, Class::Digit) as u16;
    let point = has_point(t, w);
    let end = past_fraction(t, w, point);
    let power = power_size(t, end);
    let stop = past_power(t, end, power);
    let suffix = has_suffix(t, stop);
    let exponent = 0 < power;
    stretched(t, at, point | exponent, suffix)
}

// The number that a text begins with, which stands at `at`. Up to 10 digits before a point, and 9 behind it, are read here, unless an
// `e` follows.
pub fn number_of(t: &[u8], at: u16) -> Number
    requires { Digits t.now }
    ensures { (result.at ≡ at) × NumberIs t.now result }
{
    let whole = digits_from(t, 0, 0, 10);
    let w = whole.end;
    let point = has_point(t, w);
    let all = fraction_from(t, whole, point);
    let end = all.end;
    let b = text::byte_at(t, end as usize);
    if (b == b'e') | (b == b'E') | text::in_class(Class::Digit, b) {
        return wide_number_of(t, at);
    }
    let places = places_of(point, w, end);
    let suffix = b == b's';
    Number {
        digits: all.value,
        places: places as usize,
        at,
        point,
        suffix,
        long: false,
    }
}

// ---- the values of a number

// The bits of the f32 nearest to the digits of the number that a text begins with, over 10^down, and whether it is another number.
fn long_bits(t: &[u8], d: Figures, down: usize) -> Bits
    requires { FiguresAre t.now d × (down ≤ 141) }
    ensures { Nearest (written_at t.now).digits (10 ^ down) result × (result.bits < 2147483648) }
{
    limbs::decimal(
        t,
        d.w as usize,
        d.from as usize,
        d.q as usize,
        d.up as usize,
        down,
    )
}

// The f32 nearest to the number that a text begins with, and whether it is another number.
fn long_float(t: &[u8], negative: bool) -> Stored
    requires { Digits t.now }
    ensures value { result.value ≡ nearest negative (written_at t.now) }
    ensures rounded { result.rounded ≡ number_rounded negative (written_at t.now) }
{
    let d = figures_of(t);
    let down = d.q as usize + d.down as usize;
    let b = long_bits(t, d, down);
    number::signed(negative, b)
}

// The percent of so many as a text begins with, and whether it is another number.
fn long_percent(t: &[u8], negative: bool) -> Stored
    requires { Digits t.now }
    ensures value { result.value ≡ percent negative (written_at t.now).digits }
    ensures rounded { result.rounded ≡ rounded (percent negative (written_at t.now).digits) (fraction negative (written_at t.now).digits 100) }
{
    let d = figures_of(t);
    let a = long_bits(t, d, 0);
    let b = long_bits(t, d, 2);
    let x = number::signed(negative, a);
    let once = number::signed(negative, b);
    number::percent_from(x, once)
}

// The f32 nearest to a number of a text, and whether it is another number.
pub fn float_of(text: &[u8], negative: bool, n: Number) -> Stored
    requires { Known text.now n }
    ensures value { result.value ≡ nearest negative (written_in text.now n) }
    ensures rounded { result.rounded ≡ number_rounded negative (written_in text.now n) }
{
    if n.long {
        return long_float(&text[n.at as usize..], negative);
    }
    number::decimal(negative, n.digits, n.places)
}

// The percent of so many, and whether it is another number.
pub fn percent_of(text: &[u8], negative: bool, n: Number) -> Stored
    requires { Known text.now n }
    ensures value { result.value ≡ percent negative (written_in text.now n).digits }
    ensures rounded { result.rounded ≡ rounded (percent negative (written_in text.now n).digits) (fraction negative (written_in text.now n).digits 100) }
{
    if n.long {
        return long_percent(&text[n.at as usize..], negative);
    }
    number::percent(negative, n.digits)
}

// Whether a byte is a mark.
pub fn is_mark(b: u8) -> bool
    ensures { result ≡ among ":;,=>.+-%([{)]}" b }
{
    (b == b':')
        | (b == b';')
        | (b == b',')
        | (b == b'=')
        | (b == b'>')
        | (b == b'.')
        | (b == b'+')
        | (b == b'-')
        | (b == b'%')
        | (b == b'(')
        | (b == b'[')
        | (b == b'{')
        | (b == b')')
        | (b == b']')
        | (b == b'}')
}

// The size of the token that a text begins with; no blank stands first.
fn size_of(t: &[u8]) -> u16
    requires { length t.now ≤ text_limit }
    ensures { result ≡ lexeme_size (lexeme t.now) }
{
    let b = text::byte_at(t, 0);
    if text::in_class(Class::Letter, b) {
        return name_size(t);
    }
    if text::in_class(Class::Digit, b) {
        return written_size(t, text::run_end(t, 0, Class::Digit) as u16);
    }
    if b == b'"' {
        return quoted_size(t);
    }
    if is_mark(b) {
        return 1;
    }
    0
}

// What a token is that begins with a byte.
fn kind_of(b: u8) -> Tok
    ensures { result ≡ kind_from b }
{
    if text::in_class(Class::Letter, b) {
        return Tok::Name;
    }
    if text::in_class(Class::Digit, b) {
        return Tok::Num;
    }
    if b == b'"' {
        return Tok::Quoted;
    }
    Tok::Mark(b)
}

// Why a text begins with no number: it has too many digits, unless it has a bad form, too.
fn why_number(t: &[u8]) -> Refusal
    requires { length t.now ≤ text_limit }
    ensures { (x : Refusal) → number_at t.now ≡ bad x → result ≡ x }
{
    let w = text::run_end(t, 0, Class::Digit) as u16;
    let point = has_point(t, w);
    let end = past_fraction(t, w, point);
    let power = power_size(t, end);
    let stop = past_power(t, end, power);
    let suffix = has_suffix(t, stop);
    let n = past_suffix(t, suffix, stop);
    if clinging(t, point | (0 < power), suffix, n) {
        return Refusal::BadForm;
    }
    Refusal::TooManyDigits
}

// Why a text begins with no token.
fn why(t: &[u8]) -> Refusal
    requires { length t.now ≤ text_limit }
    ensures { (x : Refusal) → lexeme t.now ≡ bad x → result ≡ x }
{
    if text::in_class(Class::Digit, text::byte_at(t, 0)) {
        return why_number(t);
    }
    Refusal::BadForm
}

// ---- blanks

// Whether 8 spaces stand at a place: a loop of a fixed length, which is made into one comparison.
fn has_8_spaces(t: &[u8], at: u16) -> bool
    requires { at + 8 ≤ length t.now }
    ensures { result ≡ true → 8 ≤ run is_blank (drop at t.now) }
{
    let mut all = true;
    for n in 0u16..8 {
        all = all & (t[at as usize + n as usize] == b' ');
    }
    all
}

// The end of the blanks from a place on; 8 spaces are passed at once.
fn blanks_end(t: &[u8], from: u16) -> u16
    requires { (from ≤ length t.now) × (length t.now ≤ text_limit) }
    ensures { result ≡ from + run is_blank (drop from t.now) }
{
    let mut i = from;
    while 8 <= t.len() - i as usize {
        if !has_8_spaces(t, i) {
            return text::run_end(t, i as usize, Class::Blank) as u16;
        }
        i += 8;
    }
    text::run_end(t, i as usize, Class::Blank) as u16
}

// The first place from one on where no blank stands. Most often there is one space or none.
pub fn past_blanks(t: &[u8], at: u16) -> u16
    requires { (at ≤ length t.now) × (length t.now ≤ text_limit) }
    ensures { result ≡ at + run is_blank (drop at t.now) }
{
    let b = text::byte_at(t, at as usize);
    if b' ' < b {
        return at;
    }
    if b == b' ' {
        if b' ' < text::byte_at(t, at as usize + 1) {
            return at + 1;
        }
    }
    blanks_end(t, at)
}

// ---- the pass over a whole text, with the awaited closers in the first words of the scratch, the innermost last

// Whether the text rules allow a text.
#[derive(Clone, Copy)]
pub enum SplitAnswer {
    Accepted,
    Refused { refusal: Refusal, place: usize },
}

// A byte as a word.
fn wide(b: u8) -> u16
    ensures { result ≡ b }
{
    b as u16
}

// The closer that goes with an opener.
fn closer(b: u8) -> u16
    ensures { result ≡ closer b }
{
    if b == b'(' {
        return wide(b')');
    }
    wide(b) + 2
}

// An opener's closer is awaited next.
fn take_opener(b: u8, words: &mut [u16], depth: u16) -> Result<u16, Refusal>
    requires { (64 ≤ length words.old) × (depth ≤ 64) }
    ensures { DepthMeans (after_opener b (held words.old depth)) words.new result }
{
    if depth < 64 {
        words[depth as usize] = closer(b);
        return Ok(depth + 1);
    }
    Err(Refusal::TooManyOpen)
}

// A closer is the one that is awaited, or it does not fit.
fn take_closer(b: u8, words: &[u16], depth: u16) -> Result<u16, Refusal>
    requires { (64 ≤ length words.now) × (depth ≤ 64) }
    ensures { DepthMeans (closed b (held words.now depth)) words.now result }
{
    if depth == 0 {
        return Err(Refusal::Unbalanced);
    }
    let last = depth - 1;
    if words[last as usize] == wide(b) {
        return Ok(last);
    }
    Err(Refusal::Unbalanced)
}

// What a mark makes of the delimiters: so many are open then, or they do not fit.
fn nest_mark(b: u8, words: &mut [u16], depth: u16) -> Result<u16, Refusal>
    requires { (64 ≤ length words.old) × (depth ≤ 64) }
    ensures { DepthMeans (nest_mark b (held words.old depth)) words.new result }
{
    if text::has(b"([{", b) {
        return take_opener(b, words, depth);
    }
    if text::has(b")]}", b) {
        return take_closer(b, words, depth);
    }
    Ok(depth)
}

// What a token makes of the delimiters.
fn nest(k: Tok, words: &mut [u16], depth: u16) -> Result<u16, Refusal>
    requires { (64 ≤ length words.old) × (depth ≤ 64) }
    ensures { (t : List ℕ) (n : ℕ) → DepthMeans (nest (kind_of t n k) (held words.old depth)) words.new result }
{
    match k {
        Tok::Mark(b) => nest_mark(b, words, depth),
        Tok::Name | Tok::Num | Tok::Quoted => Ok(depth),
    }
}

// One step of the pass: past blanks to the end of the text, where none may be open, or past a token, to a place with so many delimiters
// open. A refusal has its place.
fn step(
    text: &[u8],
    at: u16,
    words: &mut [u16],
    depth: u16,
) -> Result<Option<(u16, u16)>, (Refusal, u16)>
    requires { (at ≤ length text.now) × (length text.now ≤ text_limit) × (64 ≤ length words.old) × (depth ≤ 64) }
    ensures { TurnMeans text.now at (answer_from text.now at (held words.old depth)) words.new result }
{
    let start = past_blanks(text, at);
    if text.len() <= start as usize {
        if depth == 0 {
            return Ok(None);
        }
        return Err((Refusal::Unbalanced, start));
    }
    let t = &text[start as usize..];
    let n = size_of(t);
    if n == 0 {
        return Err((why(t), start));
    }
    match nest(kind_of(text::byte_at(t, 0)), words, depth) {
        Ok(d) => Ok(Some((start + n, d))),
        Err(refusal) => Err((refusal, start)),
    }
}

// The answer for a text.
fn pass(text: &[u8], words: &mut [u16]) -> Result<(), (Refusal, u16)>
    requires { (length text.now ≤ text_limit) × (64 ≤ length words.old) }
    ensures { wide_answer result ≡ answer_of (split text.now) }
{
    let mut at: u16 = 0;
    let mut depth: u16 = 0;
    while let Some((next, d)) = step(text, at, words, depth)? {
        at = next;
        depth = d;
    }
    Ok(())
}

// Zeroes a scratch, which may have more words than 16 bits count.
pub fn clear(words: &mut [u16])
    ensures { words.new ≡ replicate (length words.old) 0 }
{
    words.fill(0);
}

// Judges a text of at most the limit by the text rules. It uses the first 64 words of the scratch, and leaves all of it zero.
pub fn split(text: &[u8], scratch: &mut [u16]) -> SplitAnswer
    requires { length text.now ≤ text_limit }
    ensures { split_outcome result scratch.new ≡ splitting text.now scratch.old }
{
    if scratch.len() < 64 {
        return SplitAnswer::Refused {
            refusal: Refusal::ScratchTooShort,
            place: 0,
        };
    }
    let answer = pass(text, scratch);
    clear(scratch);
    match answer {
        Ok(()) => SplitAnswer::Accepted,
        Err((refusal, place)) => SplitAnswer::Refused {
            refusal,
            place: place as usize,
        },
    }
}
