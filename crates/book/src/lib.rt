// 02 (i): reading a book of named scripts. What reading a script asks of scratch and sheet is its own here.
// The functions are for our own crates: each requires a cursor that stands in a text of at most 16,384 bytes, or is lent a table of items.
#![tactic(auto)]

ghost use Rattle.std.specs.Prelude.{◌≡◌, ◌+◌, ◌*◌, ◌≤◌, ◌<◌, List, length, get_or, take};
ghost use Rattle.read_cursor.specs.Means.{Ready};
ghost use Rattle.text.specs.Bytes.{part};
ghost use Rattle.text.specs.Words.{find};
ghost use Rattle.text.specs.Means.{place_of};
ghost use Rattle.text.specs.Limits.{text_limit};
ghost use Rattle.books.specs.Book.{names, repeated, written, book as Book·book};
ghost use Rattle.books.specs.Book as grammar;
ghost use Rattle.book.specs.Means.{BodyMeans, ItemMeans, row_of, Rows, Before, BookMeans, items_of};

use ast::Span;
use error::Refusal;
use read_blocks::ParsedNodes;
use read_cursor::{Cursor, Left, MarkRead, WordRead};
use token::SplitAnswer;

// The items that a book may have.
pub const ITEM_LIMIT: usize = 128;

// The rows of the table of items. An item takes 3 bytes and more of a text.
pub const TABLE_ROWS: usize = 5461;

// The words that judging a text by the text rules asks for.
const SPLIT_WORDS: usize = 64;

// A body: where it ends, how many bytes of the sheet its nodes have, and the cursor behind its closer.
#[derive(Clone, Copy)]
pub struct Body {
    pub end: usize,
    pub bytes: usize,
    pub next: Cursor,
}

#[derive(Clone, Copy)]
pub enum BodyRead {
    Is(Body),
    Refused(Refusal, usize),
}

// An item: its name, its body's start, and the rest of it.
#[derive(Clone, Copy)]
pub struct Item {
    pub name: Span,
    pub start: usize,
    pub body: Body,
}

#[derive(Clone, Copy)]
pub enum ItemRead {
    Is(Item),
    Refused(Refusal, usize),
}

// How many items a book has; or a refusal.
#[derive(Clone, Copy)]
pub enum BookRead {
    Is(usize),
    Refused(Refusal, usize),
}

// ---- the grammar

// A body in its braces. Its sheet is written, as that of a text.
pub fn parse_body(text: &[u8], sheet: &mut [u8], c: Cursor) -> BodyRead
    requires { Ready text.now c }
    ensures { BodyMeans text.now sheet.old sheet.new c result }
{
    match read_cursor::mark(text, c, b'{') {
        MarkRead::Missing(p) => BodyRead::Refused(Refusal::Missing, p),
        MarkRead::Is(m) => match read_blocks::parse_nodes(text, sheet, m, 2, 16) {
            ParsedNodes::Refused(r, p) => BodyRead::Refused(r, p),
            ParsedNodes::Is(t) => {
                let n = t.next;
                sheet_encode::patch_count(sheet, 0, t.width);
                BodyRead::Is(Body {
                    end: read_cursor::place(n),
                    bytes: t.end,
                    next: read_cursor::leave_group(text, n, b'}'),
                })
            }
        },
    }
}

// An item.
pub fn parse_item(text: &[u8], sheet: &mut [u8], c: Cursor) -> ItemRead
    requires { Ready text.now c }
    ensures { ItemMeans text.now sheet.old sheet.new c result }
{
    match read_cursor::word(text, c) {
        WordRead::Missing(p) => ItemRead::Refused(Refusal::Missing, p),
        WordRead::Is(name, m) => match read_cursor::mark(text, m, b'=') {
            MarkRead::Missing(p) => ItemRead::Refused(Refusal::Missing, p),
            MarkRead::Is(brace) => match parse_body(text, sheet, brace) {
                BodyRead::Refused(r, p) => ItemRead::Refused(r, p),
                BodyRead::Is(body) => ItemRead::Is(Item {
                    name,
                    start: read_cursor::place(brace) + 1,
                    body,
                }),
            },
        },
    }
}

// ---- the table of items

// An item's row: where its name starts, the name's size, where its body starts, the body's size.
#[derive(Clone, Copy)]
pub struct Row {
    pub name_start: u16,
    pub name_size: u16,
    pub start: u16,
    pub size: u16,
}

pub type Table = [Row; TABLE_ROWS];

impl Row {
    pub const EMPTY: Row = Row {
        name_start: 0,
        name_size: 0,
        start: 0,
        size: 0,
    };

    // The name of its item.
    pub fn name(self, text: &[u8]) -> &[u8]
        ensures { result.now ≡ part text.now self.name_start self.name_size }
    {
        text::part(
            text,
            usize::from(self.name_start),
            usize::from(self.name_size),
        )
    }
}

// The row of an item.
fn row_of(item: Item) -> Row
    requires { (item.name.start ≤ text_limit) × (item.name.size ≤ text_limit) × (item.start ≤ item.body.end) × (item.body.end ≤ text_limit) }
    ensures { result ≡ row_of item }
{
    Row {
        name_start: item.name.start as u16,
        name_size: item.name.size as u16,
        start: item.start as u16,
        size: (item.body.end - item.start) as u16,
    }
}

// The ordinal of the item, of the first n, that has a name.
pub fn find_name(text: &[u8], table: &Table, n: usize, word: &[u8]) -> Option<usize>
    requires { n ≤ 5461 }
    ensures { (xs : List grammar.Item) → Rows text.now table.now xs → n ≤ length xs → place_of result ≡ find (take n (names xs)) 0 word.now }
{
    for k in 0..n {
        if text::is_word(word, table[k].name(text)) {
            return Some(k);
        }
    }
    None
}

// Whether item k has the name of one before it.
fn stands_before(text: &[u8], table: &Table, k: usize) -> bool
    requires { k < 5461 }
    ensures { Before text.now table.now k result }
{
    match find_name(text, table, k, table[k].name(text)) {
        Some(_) => true,
        None => false,
    }
}

// Whether two of the first n items have the same name.
fn has_twice(text: &[u8], table: &Table, n: usize) -> bool
    requires { n ≤ 5461 }
    ensures { (xs : List grammar.Item) → Rows text.now table.now xs → n ≡ length xs → result ≡ repeated (names xs) }
{
    for k in 0..n {
        if stands_before(text, table, k) {
            return true;
        }
    }
    false
}

// ---- a whole book

// The items up to the text's end, each with its row in the table.
fn parse_items(text: &[u8], table: &mut Table) -> BookRead
    requires { length text.now ≤ text_limit }
    ensures { BookMeans text.now table.new (items_of text.now) result }
{
    let mut sheet = [0u8; 1];
    let mut c = read_cursor::first(text);
    let mut n: usize = 0;
    loop {
        if read_cursor::ends(c) {
            return match read_cursor::leftover(c) {
                Left::At(p) => BookRead::Refused(Refusal::Leftover, p),
                Left::Nothing => BookRead::Is(n),
            };
        }
        match parse_item(text, &mut sheet, c) {
            ItemRead::Refused(r, p) => return BookRead::Refused(r, p),
            ItemRead::Is(item) => {
                table[n] = row_of(item);
                c = item.body.next;
                n += 1;
            }
        }
    }
}

// The text rules, then the grammar.
fn read_text(text: &[u8], table: &mut Table) -> BookRead
    ensures { BookMeans text.now table.new (written text.now) result }
{
    if text::TEXT_LIMIT < text.len() {
        return BookRead::Refused(Refusal::TextTooLong, 0);
    }
    let mut scratch = [0u16; SPLIT_WORDS];
    match token::split(text, &mut scratch) {
        SplitAnswer::Refused { refusal, place } => BookRead::Refused(refusal, place),
        SplitAnswer::Accepted => parse_items(text, table),
    }
}

// Reads a book: how many items it has, each with its row in the table; or a refusal and its place.
pub fn read(text: &[u8], table: &mut Table) -> BookRead
    ensures { BookMeans text.now table.new (Book·book text.now) result }
{
    match read_text(text, table) {
        BookRead::Refused(r, p) => BookRead::Refused(r, p),
        BookRead::Is(n) => {
            if has_twice(text, table, n) {
                return BookRead::Refused(Refusal::NameTwice, 0);
            }
            if ITEM_LIMIT < n {
                return BookRead::Refused(Refusal::TooManyItems, 0);
            }
            BookRead::Is(n)
        }
    }
}
