// The kind `line`: a line is a text and a sheet; the answer the lines of its records and the refusal at which they end.
// tools/line_cases.py makes the cases.
use error::LineAnswer;
use run_stored::answers::Refused;
use run_stored::cases::Case;
use std::io;
use std::io::Write;

pub fn answer(to: &mut impl Write, case: &Case<'_>) -> io::Result<()> {
    let sheet = case.field(1);
    for ordinal in 0..=sheet.len() {
        let mut out = [0u8; 101];
        match line::line(case.field(0), sheet, ordinal, &mut out) {
            LineAnswer::Accepted { length } => to.write_all(&out[..length.min(out.len())])?,
            LineAnswer::Refused { refusal, place } => {
                return writeln!(to, "{}", Refused { refusal, place });
            }
        }
    }
    Ok(())
}
