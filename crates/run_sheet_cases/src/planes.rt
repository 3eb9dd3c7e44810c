// The kind `plane`: a line is 00 and a sheet, which is planed, or 01 and planed bytes, which are turned back; their text stands between, and
// an output's length in two bytes behind. The answer is the length or a refusal, and the output afterwards, in which 07 stood.
// tools/plane_cases.py makes the cases.
use error::LineAnswer;
use run_stored::answers::Refused;
use run_stored::cases::Case;
use std::alloc::Global;
use std::io;
use std::io::Write;

pub fn answer(alloc: Global, to: &mut impl Write, case: &Case<'_>) -> io::Result<()> {
    let text = case.field(1);
    let bytes = case.field(2);
    let wanted = case
        .field(3)
        .first_chunk()
        .map_or(0, |bytes| u16::from_be_bytes(*bytes));
    let mut out = vec![in alloc; 7; usize::from(wanted)]?;
    let answer = if case.first_byte() == 0 {
        plane::plane(text, bytes, &mut out)
    } else {
        plane::unplane(text, bytes, &mut out)
    };
    match answer {
        LineAnswer::Accepted { length } => write!(to, "accept {length} ")?,
        LineAnswer::Refused { refusal, place } => write!(to, "{} ", Refused { refusal, place })?,
    }
    let out = hex::encode_upper(alloc, out)?;
    writeln!(to, "{out}")
}
