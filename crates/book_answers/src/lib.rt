// 02 (i): the answer of a lookup, made of what each of the two books has, and the answer of a listing, made of the order that was found.
#![tactic(auto)]

ghost use Rattle.std.specs.Prelude.{ℕ, ◌≤◌, List, ◌≡◌, length, take};
ghost use Rattle.order.specs.Means.{list_of};
ghost use Rattle.books.specs.Book.{Book};
ghost use Rattle.books.specs.Lookup.{in_books, lent};
ghost use Rattle.books.specs.Listing.{put as Listing·put, ordered as Listing·ordered};
ghost use Rattle.book_answers.specs.Means.{looked};

use error::{LookupAnswer, OrderAnswer, Refusal};

// Where a book that is read has a name.
#[derive(Clone, Copy)]
pub enum Place {
    At { start: usize, size: usize },
    Nothing,
    Refused(Refusal, usize),
}

// ---- a lookup

// The store's book first, then the chain's; one that is refused refuses the lookup, whatever the other has.
pub fn join(store: Place, chain: Place) -> LookupAnswer
    ensures { (w : List ℕ) (x y : Book) → store ≡ looked w x → chain ≡ looked w y → result ≡ in_books w x y }
{
    match store {
        Place::Refused(refusal, place) => LookupAnswer::Refused { refusal, place },
        Place::At { start, size } => match chain {
            Place::Refused(refusal, place) => LookupAnswer::Refused { refusal, place },
            _ => LookupAnswer::InStore { start, size },
        },
        Place::Nothing => match chain {
            Place::Refused(refusal, place) => LookupAnswer::Refused { refusal, place },
            Place::At { start, size } => LookupAnswer::InChain { start, size },
            Place::Nothing => LookupAnswer::Refused {
                refusal: Refusal::NoSuchItem,
                place: 0,
            },
        },
    }
}

// The body that a lookup found; of a refused one, nothing.
pub fn lend<'a>(store: &'a [u8], chain: &'a [u8], answer: LookupAnswer) -> &'a [u8]
    ensures { result.now ≡ lent store.now chain.now answer }
{
    match answer {
        LookupAnswer::InStore { start, size } => text::part(store, start, size),
        LookupAnswer::InChain { start, size } => text::part(chain, start, size),
        LookupAnswer::Refused { .. } => &store[..0],
    }
}

// ---- a listing

// Copies the first n bytes, if there is room.
fn put(from: &[u8], n: usize, out: &mut [u8]) -> OrderAnswer
    requires { n ≤ length from.now }
    ensures { (result, out.new) ≡ Listing·put out.old (take n from.now) }
{
    if out.len() < n {
        return OrderAnswer::Refused {
            refusal: Refusal::OutputTooShort,
            place: 0,
        };
    }
    out[..n].copy_from_slice(&from[..n]);
    OrderAnswer::Listed { items: n }
}

// The first n bytes are the items in their order, unless there is a ring of calls.
pub fn list(ordered: bool, from: &[u8], n: usize, out: &mut [u8]) -> OrderAnswer
    requires { n ≤ length from.now }
    ensures { (result, out.new) ≡ Listing·ordered out.old (list_of ordered (take n from.now)) }
{
    if ordered {
        return put(from, n, out);
    }
    OrderAnswer::Refused {
        refusal: Refusal::RingOfCalls,
        place: 0,
    }
}
