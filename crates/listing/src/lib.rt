// 02 (i): the items of a book listed in an order in which each stands behind all it calls.
#![tactic(auto)]

ghost use Rattle.std.specs.Prelude.{◌≡◌};
ghost use Rattle.error.specs.Answer.{order_values};
ghost use Rattle.books.specs.Book.{book as Book·book};
ghost use Rattle.book.specs.Means.{Held};
ghost use Rattle.books.specs.Listing.{listing_of, listing};

use book::{BookRead, Row, Table};
use error::OrderAnswer;

// Lists the items of a book that was read.
fn list_items(text: &[u8], table: &Table, n: usize, out: &mut [u8]) -> OrderAnswer
    requires { Held text.now table.now (Book·book text.now) n }
    ensures { (result, out.new) ≡ listing_of text.now out.old (Book·book text.now) }
{
    let mut matrix = [0u8; calls::CALL_BYTES];
    let mut listed = [0u8; book::ITEM_LIMIT];
    calls::fill(text, table, n, &mut matrix);
    let ordered = order::list(&matrix, n, &mut listed);
    book_answers::list(ordered, &listed, n, out)
}

// Lists the ordinals of a book's items, one byte each, so that each stands behind all it calls, the first by place among those free.
pub fn list(text: &[u8], out: &mut [u8]) -> OrderAnswer
    ensures out_after { (result, out.new) ≡ listing text.now out.old }
    ensures values { order_values result ≡ order_values (listing text.now out.old).0 }
{
    let mut table = [Row::EMPTY; book::TABLE_ROWS];
    match book::read(text, &mut table) {
        BookRead::Refused(refusal, place) => OrderAnswer::Refused { refusal, place },
        BookRead::Is(n) => list_items(text, &table, n, out),
    }
}
