// 02 (i): which items of a book call which. The calls are bytes: byte 128 i + j is not 0 where item i calls item j.
// For our own crates: a book that was read is required.
#![tactic(auto)]

ghost use Rattle.std.specs.Prelude.{◌≤◌, ◌<◌, List, ◌≡◌, length, replicate};
ghost use Rattle.std.proofs.Math.Option.{some};
ghost use Rattle.text.specs.Bytes.{part};
ghost use Rattle.text.specs.Words.{find};
ghost use Rattle.sheet.specs.Sheet.{Node, Forest, decode};
ghost use Rattle.books.specs.Book.{Item, Book, names, book as Book·book, item_limit};
ghost use Rattle.book.specs.Means.{Held};
ghost use Rattle.books.specs.Calls.{ordinals, presets};
ghost use Rattle.calls.specs.Means.{mark, marks, named_by, RecordHere, Sheet, Filled};

use ast::Span;
use book::{ItemRead, Table};
use sheet_decode::fields::{take_field, take_span};
use sheet_records::take_record;

// The bytes of calls.
pub const CALL_BYTES: usize = 16384;

// The bytes that the sheet of a body can have.
const SHEET_BYTES: usize = 49152;

const PRESET_KIND: u8 = 12;

// Notes a call: item i has a preset with a name.
fn note(text: &[u8], table: &Table, n: usize, calls: &mut [u8], i: usize, name: Span)
    requires { Held text.now table.now (Book·book text.now) n × (n ≤ item_limit) × (i < 128) × (length calls.old ≡ 16384) }
    ensures { (xs : List Item) → Book·book text.now ≡ Book.held xs → calls.new ≡ mark calls.old i (find (names xs) 0 (part text.now name.start name.size)) }
{
    match book::find_name(text, table, n, text::part(text, name.start, name.size)) {
        Some(j) => {
            calls[i * order::SIDE + j] = 1;
        }
        None => {}
    }
}

// Notes the call that a record of item i's sheet may be: it stands at a place, and has a kind.
fn note_record(
    text: &[u8],
    table: &Table,
    n: usize,
    calls: &mut [u8],
    i: usize,
    sheet: &[u8],
    at: usize,
    kind: u8,
)
    requires { Held text.now table.now (Book·book text.now) n × (n ≤ item_limit) × (i < 128) × (length calls.old ≡ 16384) × (at < 65536) }
    ensures { (xs : List Item) → Book·book text.now ≡ Book.held xs → (x : Node) → RecordHere (length text.now) sheet.now at kind x → calls.new ≡ marks calls.old i (ordinals (names xs) (named_by text.now x)) }
{
    if kind != PRESET_KIND {
        return;
    }
    let name = take_span(sheet, at + 3, text.len());
    let span = name.v;
    note(text, table, n, calls, i, span);
}

// Notes the calls of item i, whose sheet is lent.
fn note_calls(text: &[u8], table: &Table, n: usize, calls: &mut [u8], i: usize, sheet: &[u8])
    requires { Held text.now table.now (Book·book text.now) n × (n ≤ item_limit) × (i < 128) × (length calls.old ≡ 16384) × Sheet (length text.now) sheet.now }
    ensures { (xs : List Item) → Book·book text.now ≡ Book.held xs → (ns : Forest) → decode (length text.now) sheet.now ≡ some ns → calls.new ≡ marks calls.old i (ordinals (names xs) (presets text.now ns)) }
{
    let head = take_field(sheet, 0, 2);
    let mut at = head.next;
    while at < sheet.len() {
        let r = take_record(sheet, at, text.len());
        note_record(text, table, n, calls, i, sheet, at, r.kind);
        at = r.next;
    }
}

// Notes all calls of a book that was read.
pub fn fill(text: &[u8], table: &Table, n: usize, calls: &mut [u8])
    requires { Held text.now table.now (Book·book text.now) n × (calls.old ≡ replicate 16384 0) }
    ensures { (xs : List Item) → Book·book text.now ≡ Book.held xs → Filled text.now xs calls.new n }
{
    let mut sheet = [0u8; SHEET_BYTES];
    let mut c = read_cursor::first(text);
    let mut i: usize = 0;
    while i < n {
        match book::parse_item(text, &mut sheet, c) {
            ItemRead::Refused(_, _) => return,
            ItemRead::Is(x) => {
                let body = x.body;
                note_calls(text, table, n, calls, i, text::part(&sheet, 0, body.bytes));
                c = body.next;
            }
        }
        i += 1;
    }
}
