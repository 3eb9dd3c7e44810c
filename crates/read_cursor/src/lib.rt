// A cursor by value over the tokens of a text, and the steps of syn's ParseStream that take one token or a few.
// The functions are for our own crates: each requires a cursor that stands in the text.
#![tactic(auto)]

ghost use Rattle.std.specs.Prelude.{◌≡◌, true, List, ℕ, ◌+◌, ◌-◌, ◌≤◌, ◌<◌, length, get_or};
ghost use Rattle.std.proofs.Math.Option.{none};
ghost use Rattle.text.specs.Limits.{text_limit};
ghost use Rattle.words.specs.ListMeans.{list_of};
ghost use Rattle.words.specs.KeyMeans.{place_is};
ghost use Rattle.token.specs.Token.{tokens_from, is_mark, lexeme};
ghost use Rattle.token.specs.Means.{kind_of, last_place, lexeme_size, kind_from};
ghost use Rattle.token.specs.declared.Tok.{Tok};
ghost use Rattle.token.specs.declared.Tok.TheVariants.{Mark};
ghost use Rattle.grammar.specs.Rule.{sees_byte, sees_bytes, sees_name, is_end, ends, the_byte, both_bytes, eat_byte, word, choice_in, weigh, first_of, leave};
ghost use Rattle.grammar.specs.Values.{parse_float, parse_uint, truth};
ghost use Rattle.read_cursor.specs.WordMeans.{at_of, end_of, left_at, rounded_of, code_of, tok_of, tok_code, notes_of, head_word, noting, tallied};
ghost use Rattle.read_cursor.specs.Means.{nothing, left_of, left_is, Ready, Begins, Took, Follows, Behind, pass_of, SignAt, NumberView, MarkMeans, WordMeans, StringMeans, NumberMeans, FloatMeans, UintMeans, TruthMeans, CaseMeans, listed_in, no_keywords};

use ast::Span;
use error::Refusal;
use text::Class;
use token::{Number, Tok};

// The first place where tokens were left inside a delimiter.
#[derive(Clone, Copy)]
pub enum Left {
    Nothing,
    At(usize),
}

// Where a reader stands: the next token, and what is noted: where tokens were left, and how many numbers were rounded. In one number, so
// that it is passed in a register: the place behind the token in 16 bits, that where tokens were left in 16, the rounded numbers in 15,
// and in 17 the token's code: a mark's byte, 0 at the end; of a name, a number or a string, its kind and its place.
#[derive(Clone, Copy)]
pub struct Cursor {
    pub word: u64,
}

// Where nothing was left.
const NOTHING: u16 = 65535;

// What the codes of names, numbers and strings are above their place.
const NAME: u64 = 32768;

const NUMBER: u64 = 65536;

const STRING: u64 = 98304;

// What was taken, and the cursor behind it; or the place where it is missing, or a refusal and its place.
#[derive(Clone, Copy)]
pub enum MarkRead {
    Is(Cursor),
    Missing(usize),
}

#[derive(Clone, Copy)]
pub enum WordRead {
    Is(Span, Cursor),
    Missing(usize),
}

#[derive(Clone, Copy)]
pub enum NumberRead {
    Is(bool, Number, Cursor),
    Missing(usize),
}

#[derive(Clone, Copy)]
pub enum FloatRead {
    Is(f32, Cursor),
    Refused(Refusal, usize),
}

#[derive(Clone, Copy)]
pub enum UintRead {
    Is(u32, Cursor),
    Refused(Refusal, usize),
}

#[derive(Clone, Copy)]
pub enum TruthRead {
    Is(bool, Cursor),
    Missing(usize),
}

#[derive(Clone, Copy)]
pub enum CaseRead {
    Is(usize, Cursor),
    Refused(Refusal, usize),
}

// Whether a mark was taken, and the cursor then.
#[derive(Clone, Copy)]
pub struct Eaten {
    pub taken: bool,
    pub next: Cursor,
}

#[derive(Clone, Copy)]
pub enum NumberSeen {
    Is(Number),
    Not,
}

#[derive(Clone, Copy)]
pub enum Passing {
    Halts,
    Closes,
    Goes(usize),
}

// ---- the cursor

// The place behind the next token.
fn end(c: Cursor) -> u16
    ensures { result ≡ end_of c }
{
    (c.word % 65536) as u16
}

// The next token's code.
fn code(c: Cursor) -> u64
    ensures { result ≡ code_of c }
{
    c.word / 140737488355328
}

// The place of the next token, in 16 bits.
fn short_place(c: Cursor) -> u16
    ensures { result ≡ at_of c }
{
    let k = code(c);
    if 256 <= k {
        return (k % 32768) as u16;
    }
    let e = end(c);
    if (k == 0) | (e == 0) {
        return e;
    }
    e - 1
}

// The bytes of the next token.
fn size(c: Cursor) -> usize
    requires { at_of c ≤ end_of c }
    ensures { result ≡ end_of c - at_of c }
{
    (end(c) - short_place(c)) as usize
}

// The place of the next token.
pub fn place(c: Cursor) -> usize
    ensures { result ≡ at_of c }
{
    short_place(c) as usize
}

// What the next token is.
pub fn kind(c: Cursor) -> Tok
    ensures { result ≡ tok_of c }
{
    let k = code(c);
    if k < 256 {
        return Tok::Mark(k as u8);
    }
    if k < NUMBER {
        return Tok::Name;
    }
    if k < STRING {
        return Tok::Num;
    }
    Tok::Quoted
}

// How many numbers behind it were rounded.
pub fn rounded(c: Cursor) -> usize
    ensures { result ≡ rounded_of c }
{
    (c.word / 4294967296 % 32768) as usize
}

// The first place where tokens were left, 65,535 for none.
fn noted(c: Cursor) -> u16
    ensures { result ≡ left_at c }
{
    (c.word / 65536 % 65536) as u16
}

// The first place where tokens were left.
pub fn leftover(c: Cursor) -> Left
    ensures { left_is result ≡ left_of (left_at c) }
{
    let left = noted(c);
    if left == NOTHING {
        return Left::Nothing;
    }
    Left::At(left as usize)
}

// ---- the word of a token, over notes: those of a word, its other bits 0

fn notes(c: Cursor) -> u64
    ensures { result ≡ notes_of c }
{
    c.word / 65536 % 2147483648 * 65536
}

fn end_word(notes: u64, at: u16) -> u64
    requires { notes + 65536 ≤ 140737488355328 }
    ensures { (k : Tok) → result ≡ head_word notes at k 0 }
{
    notes + at as u64
}

fn mark_word(notes: u64, at: u16, b: u8) -> u64
    requires { (notes + 65536 ≤ 140737488355328) × (at < 65535) }
    ensures { result ≡ head_word notes at (Mark b) 1 }
{
    let end = at + 1;
    b as u64 * 140737488355328 + notes + end as u64
}

// Of a name, a number or a string of n bytes; of the end where it has none.
fn long_word(notes: u64, at: u16, kind: u64, n: u16) -> u64
    requires { (notes + 65536 ≤ 140737488355328) × (at + n ≤ text_limit) × (kind ≤ 98304) }
    ensures { (k : Tok) → tok_code k at ≡ kind + at → result ≡ head_word notes at k n }
{
    if n == 0 {
        return end_word(notes, at);
    }
    let end = at + n;
    (kind + at as u64) * 140737488355328 + notes + end as u64
}

// Of the token that t begins with, or the end.
fn token_word(t: &[u8], notes: u64, at: u16) -> u64
    requires { (notes + 65536 ≤ 140737488355328) × (at + length t.now ≤ text_limit) }
    ensures { result ≡ head_word notes at (kind_from (get_or t.now 0 0)) (lexeme_size (lexeme t.now)) }
{
    let b = text::byte_at(t, 0);
    if text::in_class(Class::Letter, b) {
        return long_word(notes, at, NAME, token::name_size(t));
    }
    if text::in_class(Class::Digit, b) {
        return long_word(notes, at, NUMBER, token::number_size(t));
    }
    if b == b'"' {
        return long_word(notes, at, STRING, token::quoted_size(t));
    }
    if token::is_mark(b) {
        return mark_word(notes, at, b);
    }
    end_word(notes, at)
}

// ---- the cursor from token to token

// The word of the first token from a place on, with what is noted at c. It is called, not inlined, and answers in a register.
fn start(text: &[u8], at: u16, c: Cursor) -> u64
    requires { (at ≤ length text.now) × (length text.now ≤ text_limit) × (last_place 0 (tokens_from text.now at) ≡ last_place 0 (tokens_from text.now 0)) × (rounded_of c ≤ at) }
    ensures { Begins text.now at (left_at c) (rounded_of c) (record { word = result }) }
{
    let s = token::past_blanks(text, at);
    token_word(&text[s as usize..], notes(c), s)
}

// Before a text's first token.
pub fn first(text: &[u8]) -> Cursor
    requires { length text.now ≤ text_limit }
    ensures { Begins text.now 0 nothing 0 result }
{
    let c = Cursor {
        word: NOTHING as u64 * 65536,
    };
    Cursor {
        word: start(text, 0, c),
    }
}

// Behind the next token; at the text's end it stays.
pub fn advance(text: &[u8], c: Cursor) -> Cursor
    requires { Ready text.now c }
    ensures { Follows text.now c result }
{
    Cursor {
        word: start(text, end(c), c),
    }
}

// The same, where most often the mark b stands right behind the next token.
pub fn hop(text: &[u8], c: Cursor, b: u8) -> Cursor
    requires { Ready text.now c }
    ensures { Follows text.now c result }
{
    let e = end(c);
    if (text::byte_at(text, e as usize) == b) & token::is_mark(b) {
        return Cursor {
            word: mark_word(notes(c), e, b),
        };
    }
    advance(text, c)
}

// ---- looking at the next token

fn is_mark(k: Tok, b: u8) -> bool
    ensures { (t : List ℕ) (n : ℕ) → result ≡ is_mark (kind_of t n k) b }
{
    match k {
        Tok::Mark(d) => d == b,
        Tok::Name => false,
        Tok::Num => false,
        Tok::Quoted => false,
    }
}

// Whether the next token is a mark.
pub fn sees(c: Cursor, b: u8) -> bool
    ensures { (s : List ℕ) → Ready s c → result ≡ sees_byte b (tokens_from s (at_of c)) }
{
    let k = kind(c);
    is_mark(k, b)
}

fn is_end(k: Tok) -> bool
    ensures { (t : List ℕ) (n : ℕ) → result ≡ is_end (kind_of t n k) }
{
    match k {
        Tok::Mark(b) => text::has(b"\0)]}", b),
        Tok::Name => false,
        Tok::Num => false,
        Tok::Quoted => false,
    }
}

// Whether the group or the text ends here.
pub fn ends(c: Cursor) -> bool
    ensures { (s : List ℕ) → Ready s c → result ≡ ends (tokens_from s (at_of c)) }
{
    let k = kind(c);
    is_end(k)
}

// Whether the next token is that word, a name or a keyword.
pub fn sees_word(text: &[u8], c: Cursor, word: &[u8]) -> bool
    requires { Ready text.now c }
    ensures { result ≡ sees_bytes word.now (tokens_from text.now (at_of c)) }
{
    let k = kind(c);
    match k {
        Tok::Name => text::is_word(text::part(text, place(c), size(c)), word),
        Tok::Mark(_) => false,
        Tok::Num => false,
        Tok::Quoted => false,
    }
}

// The place of the next token in a list, if it is a word that stands there, a name or a keyword.
pub fn listed(text: &[u8], c: Cursor, list: words::List) -> Option<u8>
    requires { Ready text.now c }
    ensures { place_is result ≡ listed_in (list_of list) (tokens_from text.now (at_of c)) }
{
    let k = kind(c);
    match k {
        Tok::Name => words::find(list, text, place(c), size(c)),
        Tok::Mark(_) => None,
        Tok::Num => None,
        Tok::Quoted => None,
    }
}

// Whether the next token is a name that is no keyword.
pub fn sees_name(text: &[u8], c: Cursor) -> bool
    requires { Ready text.now c }
    ensures { result ≡ sees_name (tokens_from text.now (at_of c)) }
{
    let k = kind(c);
    match k {
        Tok::Name => !keywords::is_keyword(text::part(text, place(c), size(c))),
        Tok::Mark(_) => false,
        Tok::Num => false,
        Tok::Quoted => false,
    }
}

// ---- taking the next token

pub fn mark(text: &[u8], c: Cursor, b: u8) -> MarkRead
    requires { Ready text.now c × (0 < b) }
    ensures { MarkMeans text.now c (the_byte b) result }
{
    if sees(c, b) {
        return MarkRead::Is(advance(text, c));
    }
    MarkRead::Missing(place(c))
}

// Two marks side by side.
pub fn both(text: &[u8], c: Cursor, a: u8, b: u8) -> MarkRead
    requires { Ready text.now c × (0 < a) × (0 < b) }
    ensures { MarkMeans text.now c (both_bytes a b) result }
{
    let at = place(c);
    if sees(c, a) {
        let m = hop(text, c, b);
        if sees(m, b) {
            if place(m) == at + 1 {
                return MarkRead::Is(advance(text, m));
            }
        }
    }
    MarkRead::Missing(at)
}

// Takes a mark if it is there.
pub fn eat(text: &[u8], c: Cursor, b: u8) -> Eaten
    requires { Ready text.now c × (0 < b) }
    ensures { Took 0 text.now c result.next (eat_byte b) result.taken }
{
    if sees(c, b) {
        let next = advance(text, c);
        return Eaten { taken: true, next };
    }
    Eaten {
        taken: false,
        next: c,
    }
}

// The bytes of the next token.
fn span(c: Cursor) -> Span
    requires { at_of c ≤ end_of c }
    ensures { (result.start ≡ at_of c) × (result.size ≡ end_of c - at_of c) }
{
    let start = place(c);
    let size = size(c);
    Span { start, size }
}

// A name that is no keyword.
pub fn word(text: &[u8], c: Cursor) -> WordRead
    requires { Ready text.now c }
    ensures { WordMeans text.now c result }
{
    if sees_name(text, c) {
        return WordRead::Is(span(c), advance(text, c));
    }
    WordRead::Missing(place(c))
}

// The same, where most often the mark b stands right behind it.
pub fn word_before(text: &[u8], c: Cursor, b: u8) -> WordRead
    requires { Ready text.now c }
    ensures { WordMeans text.now c result }
{
    if sees_name(text, c) {
        return WordRead::Is(span(c), hop(text, c, b));
    }
    WordRead::Missing(place(c))
}

// A string: what stands between its quotes.
pub fn string(text: &[u8], c: Cursor) -> WordRead
    requires { Ready text.now c }
    ensures { StringMeans text.now c result }
{
    let k = kind(c);
    let start = place(c);
    match k {
        Tok::Quoted => {
            let size = size(c) - 2;
            let span = Span {
                start: start + 1,
                size,
            };
            WordRead::Is(span, advance(text, c))
        }
        Tok::Name => WordRead::Missing(start),
        Tok::Mark(_) => WordRead::Missing(start),
        Tok::Num => WordRead::Missing(start),
    }
}

// `true` or `false`.
pub fn truth(text: &[u8], c: Cursor) -> TruthRead
    requires { Ready text.now c }
    ensures { TruthMeans text.now c truth result }
{
    if sees_word(text, c, b"true") {
        return TruthRead::Is(true, advance(text, c));
    }
    if sees_word(text, c, b"false") {
        return TruthRead::Is(false, advance(text, c));
    }
    TruthRead::Missing(place(c))
}

// What is refused where no word of a list stands.
fn unlisted(text: &[u8], c: Cursor, refusal: Refusal) -> CaseRead
    requires { Ready text.now c }
    ensures { (ns : List (List ℕ)) → listed_in ns (tokens_from text.now (at_of c)) ≡ none → CaseMeans text.now c (choice_in refusal ns) result }
{
    if sees_name(text, c) {
        return CaseRead::Refused(refusal, place(advance(text, c)));
    }
    CaseRead::Refused(Refusal::Missing, place(c))
}

// A name of a list, as its position there. No word of the list is a keyword.
pub fn choice(text: &[u8], c: Cursor, list: words::List, refusal: Refusal) -> CaseRead
    requires { Ready text.now c × (no_keywords (list_of list) ≡ true) }
    ensures { CaseMeans text.now c (choice_in refusal (list_of list)) result }
{
    match listed(text, c, list) {
        Some(i) => CaseRead::Is(i as usize, advance(text, c)),
        None => unlisted(text, c, refusal),
    }
}

// ---- numbers

// The next token, if it is a number: its value is made here, where it is taken.
fn number_seen(text: &[u8], c: Cursor) -> NumberSeen
    requires { Ready text.now c }
    ensures { NumberView text.now c result }
{
    let k = kind(c);
    match k {
        Tok::Num => {
            let at = short_place(c);
            NumberSeen::Is(token::number_of(&text[at as usize..], at))
        }
        Tok::Mark(_) => NumberSeen::Not,
        Tok::Name => NumberSeen::Not,
        Tok::Quoted => NumberSeen::Not,
    }
}

// A number, or `-` and a number.
pub fn number(text: &[u8], c: Cursor) -> NumberRead
    requires { Ready text.now c }
    ensures { NumberMeans text.now c result }
{
    if sees(c, b'-') {
        let m = advance(text, c);
        return match number_seen(text, m) {
            NumberSeen::Is(n) => NumberRead::Is(true, n, advance(text, m)),
            NumberSeen::Not => NumberRead::Missing(place(c)),
        };
    }
    match number_seen(text, c) {
        NumberSeen::Is(n) => NumberRead::Is(false, n, advance(text, c)),
        NumberSeen::Not => NumberRead::Missing(place(c)),
    }
}

// Counts a number that was taken, if it was rounded.
pub fn count(c: Cursor, rounded: bool) -> Cursor
    requires { rounded_of c ≤ text_limit }
    ensures { result ≡ tallied rounded c }
{
    if rounded {
        return Cursor {
            word: c.word + 4294967296,
        };
    }
    c
}

// The number at m, which is c, or behind the `-` at c, as an f32.
fn signed_float(text: &[u8], c: Cursor, m: Cursor, negative: bool) -> FloatRead
    requires { Ready text.now c × Ready text.now m × SignAt text.now c m negative }
    ensures { FloatMeans text.now c parse_float result }
{
    match number_seen(text, m) {
        NumberSeen::Is(n) => {
            let x = token::float_of(text, negative, n);
            FloatRead::Is(x.value, count(advance(text, m), x.rounded))
        }
        NumberSeen::Not => FloatRead::Refused(Refusal::Malformed, place(c)),
    }
}

pub fn parse_float(text: &[u8], c: Cursor) -> FloatRead
    requires { Ready text.now c }
    ensures { FloatMeans text.now c parse_float result }
{
    if sees(c, b'-') {
        return signed_float(text, c, advance(text, c), true);
    }
    signed_float(text, c, c, false)
}

pub fn parse_uint(text: &[u8], c: Cursor) -> UintRead
    requires { Ready text.now c }
    ensures { UintMeans text.now c parse_uint result }
{
    match number(text, c) {
        NumberRead::Missing(p) => UintRead::Refused(Refusal::Missing, p),
        NumberRead::Is(negative, n, m) => {
            if n.point {
                return UintRead::Refused(Refusal::Missing, place(c));
            }
            match number::whole(negative, n.digits) {
                Some(v) => UintRead::Is(v, m),
                None => UintRead::Refused(Refusal::Malformed, place(m)),
            }
        }
    }
}

// ---- leaving a group

// What a token is to a reader that leaves a group, d deeper ones being open.
fn pass_of(k: Tok, d: usize) -> Passing
    requires { d < 18446744073709551615 }
    ensures { (t : List ℕ) (n : ℕ) → pass_of result ≡ weigh (kind_of t n k) d }
{
    match k {
        Tok::Mark(b) => {
            if b == 0 {
                return Passing::Halts;
            }
            if text::has(b")]}", b) {
                if d == 0 {
                    return Passing::Closes;
                }
                return Passing::Goes(d - 1);
            }
            if text::has(b"([{", b) {
                return Passing::Goes(d + 1);
            }
            Passing::Goes(d)
        }
        Tok::Name => Passing::Goes(d),
        Tok::Num => Passing::Goes(d),
        Tok::Quoted => Passing::Goes(d),
    }
}

// Behind the closer of the group that a cursor stands in.
fn past_group(text: &[u8], c: Cursor) -> Cursor
    requires { Ready text.now c }
    ensures { Behind text.now c result }
{
    let mut m = c;
    let mut d: usize = 0;
    loop {
        let k = kind(m);
        match pass_of(k, d) {
            Passing::Halts => return m,
            Passing::Closes => return advance(text, m),
            Passing::Goes(e) => {
                d = e;
                m = advance(text, m);
            }
        }
    }
}

// What is noted at a place where tokens are left.
fn first_of(was: u16, p: u16) -> u16
    requires { p ≤ text_limit }
    ensures { left_of result ≡ first_of (left_of was) p }
{
    if was != NOTHING {
        return was;
    }
    p
}

// A cursor with another place noted.
fn noting(c: Cursor, left: u16) -> Cursor
    ensures { result ≡ noting c left }
{
    Cursor {
        word: c.word / 4294967296 * 4294967296 + left as u64 * 65536 + c.word % 65536,
    }
}

// Leaves a group by its closer: what is left in it is passed over, and noted.
pub fn leave_group(text: &[u8], c: Cursor, closer: u8) -> Cursor
    requires { Ready text.now c }
    ensures { Took 0 text.now c result (leave closer) tt }
{
    if sees(c, closer) {
        return advance(text, c);
    }
    let left = first_of(noted(c), short_place(c));
    noting(past_group(text, c), left)
}
