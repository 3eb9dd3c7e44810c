// The kind `shelf`, whose lines are texts: 01's shelf tests, scripts at its limits and those of examples/. The answer is what the program
// prints for the text (tools/shelf.py).
use error::LineAnswer;
use run_stored::cases::Case;
use std::io;
use std::io::Write;

pub fn answer(to: &mut impl Write, case: &Case<'_>) -> io::Result<()> {
    let mut scratch = [0u16; parser::SCRATCH_WORDS];
    let mut sheet = [0u8; print::SHEET_BYTES];
    let mut page = [0u8; print::PAGE_BYTES];
    let answer = print::print(case.field(0), &mut scratch, &mut sheet, &mut page, 1);
    if let LineAnswer::Accepted { length } = answer {
        to.write_all(&page[..length.min(page.len())])?;
    }
    Ok(())
}
