// The kind `book`: a line is 00, the store's book, the chain's and a name, which is looked up; or 01, a book and an output's length in two
// bytes, and its items are listed. The answer to a lookup is the book, the body's start, its size and its bytes; to a listing the count,
// and the output afterwards, in which 07 stood. tools/book_cases.py makes the cases.
use error::{LookupAnswer, OrderAnswer};
use run_stored::answers::Refused;
use run_stored::cases::Case;
use std::alloc::Global;
use std::io;
use std::io::Write;

// The longest output that is lent. A longer one has no answer.
const ROOM: usize = 256;

pub fn answer(alloc: Global, to: &mut impl Write, case: &Case<'_>) -> io::Result<()> {
    if case.first_byte() == 0 {
        look_up(alloc, to, case.field(1), case.field(2), case.field(3))?;
    } else {
        let wanted = case
            .field(2)
            .first_chunk()
            .map_or(0, |bytes| u16::from_be_bytes(*bytes));
        let wanted = usize::from(wanted);
        if wanted <= ROOM {
            list(alloc, to, case.field(1), wanted)?;
        }
    }
    writeln!(to)
}

fn look_up(
    alloc: Global,
    to: &mut impl Write,
    store: &[u8],
    chain: &[u8],
    name: &[u8],
) -> io::Result<()> {
    match lookup::find(store, chain, name) {
        LookupAnswer::InStore { start, size } => write!(to, "store {start} {size} ")?,
        LookupAnswer::InChain { start, size } => write!(to, "chain {start} {size} ")?,
        LookupAnswer::Refused { refusal, place } => write!(to, "{}", Refused { refusal, place })?,
    }
    let body = hex::encode_upper(alloc, lookup::lookup(store, chain, name))?;
    write!(to, "{body}")
}

fn list(alloc: Global, to: &mut impl Write, book: &[u8], room: usize) -> io::Result<()> {
    let mut out = vec![in alloc; 7; room]?;
    match listing::list(book, &mut out) {
        OrderAnswer::Listed { items } => write!(to, "list {items} ")?,
        OrderAnswer::Refused { refusal, place } => write!(to, "{} ", Refused { refusal, place })?,
    }
    let out = hex::encode_upper(alloc, out)?;
    write!(to, "{out}")
}
