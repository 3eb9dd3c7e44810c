// The kind `back`: a line is a text, a sheet and a buffer's length in two bytes; the answer the script that is written back, or the refusal,
// and whether the rest of the buffer is zero. tools/back_cases.py makes the cases.
use error::LineAnswer;
use run_stored::answers::Refused;
use run_stored::cases::Case;
use std::alloc::Global;
use std::io;
use std::io::Write;

// The longest buffer that is lent.
const ROOM: usize = 16640;

// Lends a buffer in which something stands.
pub fn answer(alloc: Global, to: &mut impl Write, case: &Case<'_>) -> io::Result<()> {
    let wanted = case
        .field(2)
        .first_chunk()
        .map_or(0, |bytes| u16::from_be_bytes(*bytes));
    let mut out = vec![in alloc; 7; usize::from(wanted).min(ROOM)]?;
    let rest = match back::write(case.field(0), case.field(1), &mut out, 1) {
        LineAnswer::Accepted { length } => {
            let (written, rest) = out.split_at(length.min(out.len()));
            write!(to, "accept {length} ")?;
            to.write_all(written)?;
            rest
        }
        LineAnswer::Refused { refusal, place } => {
            write!(to, "{}", Refused { refusal, place })?;
            out.as_slice()
        }
    };
    let (words, bytes) = rest.as_chunks::<8>();
    if words.iter().all(|word| u64::from_ne_bytes(*word) == 0) && bytes.iter().all(|b| *b == 0) {
        writeln!(to, "\tzero")
    } else {
        writeln!(to, "\tnot zero")
    }
}
