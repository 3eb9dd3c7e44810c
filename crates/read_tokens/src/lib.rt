// A token reader: the text and a cursor in it, in one struct, with thin functions over the cursor by value.
// The functions over a reader are for our own crates: each requires a cursor that stands in the text.
#![tactic(auto)]

ghost use Rattle.std.specs.Prelude.{◌≡◌, ◌<◌};
ghost use Rattle.token.specs.Token.{tokens_from, rest};
ghost use Rattle.grammar.specs.Rule.{sees_byte, the_byte};
ghost use Rattle.read_cursor.specs.Means.{nothing, Ready, tokens, Begins, Follows, MarkMeans, WordMeans};
ghost use Rattle.read_tokens.specs.Reader.{readable, token_count, is_blank};

use read_cursor::{Cursor, MarkRead, WordRead};

#[derive(Clone, Copy)]
pub struct TokenReader<'a> {
    pub text: &'a [u8],
    pub cursor: Cursor,
}

// The work: the text that is read, and how many tokens stand from a cursor on.
fn readable(text: &[u8]) -> &[u8]
    ensures { result.now ≡ readable text.now }
{
    if text::TEXT_LIMIT < text.len() {
        return &text[0..0];
    }
    text
}

fn count_from(text: &[u8], c: Cursor) -> usize
    requires { Ready text.now c }
    ensures { result ≡ token_count (tokens text.now c) }
{
    let mut m = c;
    let mut n: usize = 0;
    while !read_cursor::sees(m, 0) {
        n = n + 1;
        m = read_cursor::advance(text, m);
    }
    n
}

// At the text's start. A text over the limit is read as the empty one.
pub fn new<'a>(text: &'a [u8]) -> TokenReader<'a>
    ensures { (result.text.now ≡ readable text.now) × Begins result.text.now 0 nothing 0 result.cursor }
{
    let part = readable(text);
    let cursor = read_cursor::first(part);
    TokenReader { text: part, cursor }
}

// Whether the next token is a mark.
pub fn sees<'a>(r: TokenReader<'a>, b: u8) -> bool
    requires { Ready r.text.now r.cursor }
    ensures { result ≡ sees_byte b (tokens r.entry.text.now r.entry.cursor) }
{
    read_cursor::sees(r.cursor, b)
}

// Takes a mark: the cursor behind it, or the place where it is missing.
pub fn mark<'a>(r: TokenReader<'a>, b: u8) -> MarkRead
    requires { Ready r.text.now r.cursor × (0 < b) }
    ensures { MarkMeans r.entry.text.now r.entry.cursor (the_byte b) result }
{
    read_cursor::mark(r.text, r.cursor, b)
}

// Takes a name that is no keyword.
pub fn word<'a>(r: TokenReader<'a>) -> WordRead
    requires { Ready r.text.now r.cursor }
    ensures { WordMeans r.entry.text.now r.entry.cursor result }
{
    read_cursor::word(r.text, r.cursor)
}

// Behind the next token; at the text's end it stays.
pub fn advance<'a>(r: TokenReader<'a>) -> TokenReader<'a>
    requires { Ready r.text.now r.cursor }
    ensures { (result.text ≡ r.entry.text) × Follows r.entry.text.now r.entry.cursor result.cursor }
{
    let cursor = read_cursor::advance(r.text, r.cursor);
    TokenReader {
        text: r.text,
        cursor,
    }
}

// How many tokens stand before the text's end.
pub fn count<'a>(r: TokenReader<'a>) -> usize
    requires { Ready r.text.now r.cursor }
    ensures { result ≡ token_count (tokens r.entry.text.now r.entry.cursor) }
{
    count_from(r.text, r.cursor)
}

// How many tokens a text has, none if it is over the limit.
pub fn count_tokens(text: &[u8]) -> usize
    ensures { result ≡ token_count (tokens_from (readable text.now) 0) }
{
    count(new(text))
}

// Whether a text's second token is a mark, as the `{` behind a container's keyword is.
pub fn second_is(text: &[u8], b: u8) -> bool
    ensures { result ≡ sees_byte b (rest (tokens_from (readable text.now) 0)) }
{
    sees(advance(new(text)), b)
}

// Whether a text of at most the limit has no tokens.
pub fn is_blank(text: &[u8]) -> bool
    ensures { result ≡ is_blank text.now }
{
    if text::TEXT_LIMIT < text.len() {
        return false;
    }
    count_tokens(text) == 0
}
