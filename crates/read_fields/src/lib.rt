// parser.rs, "Field-list helper": to the next field of a list, whatever the list's table.
// The functions are for our own crates: each requires a cursor that stands in the text.
#![tactic(auto)]

ghost use Rattle.std.specs.Prelude.{◌≡◌, List, ℕ, true};
ghost use Rattle.token.specs.Means.{kind_of};
ghost use Rattle.std.proofs.Math.Option.{none};
ghost use Rattle.text.specs.Words.{find};
ghost use Rattle.words.specs.ListMeans.{list_of};
ghost use Rattle.words.specs.KeyMeans.{place_is};
ghost use Rattle.token.specs.Token.{tokens_from};
ghost use Rattle.grammar.specs.Fields.{item_of, field_name, pair_name, Table};
ghost use Rattle.read_cursor.specs.WordMeans.{at_of};
ghost use Rattle.read_cursor.specs.Means.{Ready, listed_in, no_keywords};
ghost use Rattle.read_fields.specs.Means.{item_is, names, HeadMeans, StartMeans, FieldMeans, PairMeans};

use error::Refusal;
use read_cursor::{Cursor, MarkRead};
use token::Tok;

// What the next token is to a list of fields.
#[derive(Clone, Copy)]
pub enum Item {
    Halts,
    Closes,
    Passes,
    Starts,
}

// The next field: its place in the table, and the cursor behind its `:`; or the list's end, or a refusal.
#[derive(Clone, Copy)]
pub enum NextField {
    Field(usize, Cursor),
    Done(Cursor),
    Refused(Refusal, usize),
}

fn item_of(k: Tok) -> Item
    ensures { (t : List ℕ) (n : ℕ) → item_is result ≡ item_of (kind_of t n k) }
{
    match k {
        Tok::Mark(b) => {
            if text::has(b"\0)]}{", b) {
                return Item::Halts;
            }
            if b == b',' {
                return Item::Passes;
            }
            if b == b';' {
                return Item::Closes;
            }
            Item::Starts
        }
        Tok::Name => Item::Starts,
        Tok::Num => Item::Starts,
        Tok::Quoted => Item::Starts,
    }
}

// Behind a name: its `:`, and its place in the list.
fn after_name(text: &[u8], row: Option<u8>, c: Cursor) -> NextField
    requires { Ready text.now c }
    ensures { (t : Table) (w : List ℕ) → place_is row ≡ find (names t) 0 w → HeadMeans text.now w c t result }
{
    match read_cursor::mark(text, c, b':') {
        MarkRead::Missing(p) => NextField::Refused(Refusal::Missing, p),
        MarkRead::Is(m) => match row {
            None => NextField::Refused(Refusal::UnknownKeyword, read_cursor::place(m)),
            Some(row) => NextField::Field(row as usize, m),
        },
    }
}

// A name that is in no row: it may be no name at all.
fn unlisted(text: &[u8], c: Cursor) -> NextField
    requires { Ready text.now c }
    ensures { (t : Table) → listed_in (names t) (tokens_from text.now (at_of c)) ≡ none → StartMeans text.now pair_name c t result }
{
    if read_cursor::sees_name(text, c) {
        return after_name(text, None, read_cursor::advance(text, c));
    }
    NextField::Refused(Refusal::Missing, read_cursor::place(c))
}

// A field behind which others may follow. `loop`, which is no name elsewhere, is one here.
fn start_field(text: &[u8], c: Cursor, list: words::List) -> NextField
    requires { Ready text.now c }
    ensures { (t : Table) → names t ≡ list_of list → StartMeans text.now field_name c t result }
{
    match read_cursor::listed(text, c, list) {
        None => {
            if read_cursor::sees_word(text, c, b"loop") {
                return after_name(text, None, read_cursor::advance(text, c));
            }
            unlisted(text, c)
        }
        Some(row) => after_name(text, Some(row), read_cursor::hop(text, c, b':')),
    }
}

// To the next field of a list, which ends at the group's end or a `{`, or behind a `;`.
pub fn parse_field_list(text: &[u8], c: Cursor, list: words::List) -> NextField
    requires { Ready text.now c }
    ensures { (t : Table) → names t ≡ list_of list → FieldMeans text.now c t result }
{
    let mut m = c;
    loop {
        let k = read_cursor::kind(m);
        match item_of(k) {
            Item::Halts => return NextField::Done(m),
            Item::Closes => return NextField::Done(read_cursor::advance(text, m)),
            Item::Passes => {
                m = read_cursor::advance(text, m);
            }
            Item::Starts => return start_field(text, m, list),
        }
    }
}

// To the next of the fields in parentheses, which end with the group. No word of the list is a keyword.
pub fn next_pair(text: &[u8], c: Cursor, list: words::List) -> NextField
    requires { Ready text.now c × (no_keywords (list_of list) ≡ true) }
    ensures { (t : Table) → names t ≡ list_of list → PairMeans text.now c t result }
{
    if read_cursor::ends(c) {
        return NextField::Done(c);
    }
    match read_cursor::listed(text, c, list) {
        None => unlisted(text, c),
        Some(row) => after_name(text, Some(row), read_cursor::hop(text, c, b':')),
    }
}
