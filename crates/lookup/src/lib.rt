// 02 (i): a name looked up in two books, the store's and the chain's.
#![tactic(auto)]

ghost use Rattle.std.specs.Prelude.{◌≡◌};
ghost use Rattle.error.specs.Answer.{lookup_values};
ghost use Rattle.books.specs.Book.{book as Book·book};
ghost use Rattle.books.specs.Lookup.{looking_up, lent};
ghost use Rattle.book_answers.specs.Means.{looked};

use book::{BookRead, Row};
use book_answers::Place;
use error::LookupAnswer;

// Where a book has a name.
fn look_in(text: &[u8], name: &[u8]) -> Place
    ensures { result ≡ looked name.now (Book·book text.now) }
{
    let mut table = [Row::EMPTY; book::TABLE_ROWS];
    match book::read(text, &mut table) {
        BookRead::Refused(r, p) => Place::Refused(r, p),
        BookRead::Is(n) => match book::find_name(text, &table, n, name) {
            None => Place::Nothing,
            Some(k) => {
                let row = table[k];
                Place::At {
                    start: usize::from(row.start),
                    size: usize::from(row.size),
                }
            }
        },
    }
}

// Looks a name up in the store's book, then in the chain's.
pub fn find(store: &[u8], chain: &[u8], name: &[u8]) -> LookupAnswer
    ensures value { result ≡ looking_up store.now chain.now name.now }
    ensures values { lookup_values result ≡ lookup_values (looking_up store.now chain.now name.now) }
{
    match look_in(store, name) {
        Place::Refused(refusal, place) => LookupAnswer::Refused { refusal, place },
        Place::At { start, size } => {
            book_answers::join(Place::At { start, size }, look_in(chain, name))
        }
        Place::Nothing => book_answers::join(Place::Nothing, look_in(chain, name)),
    }
}

// Looks a name up, and lends the body from whichever of the two books has it; nothing on a refusal.
pub fn lookup<'a>(store: &'a [u8], chain: &'a [u8], name: &[u8]) -> &'a [u8]
    ensures { result.now ≡ lent store.now chain.now (looking_up store.now chain.now name.now) }
{
    book_answers::lend(store, chain, find(store, chain, name))
}
