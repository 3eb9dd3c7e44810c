// The kind `sheet`: a line is a text's length in decimal and bytes; the answer `no sheet`, or `sheet` and the sizes of its records.
// oracle/store-sheets.sh makes the cases.
use run_stored::cases::Case;
use sheet_records::RecordAt;
use std::io;
use std::io::Write;

pub fn answer(to: &mut impl Write, case: &Case<'_>) -> io::Result<()> {
    let sheet = case.field(1);
    let text_len = case.first_decimal();
    if !sheet_records::is_sheet(sheet, text_len) {
        return writeln!(to, "no sheet");
    }
    write!(to, "sheet")?;
    for ordinal in 0..=sheet.len() {
        match sheet_records::find_record(sheet, text_len, ordinal) {
            RecordAt::At { start: _, size } if size > 0 => write!(to, " {size}")?,
            _ => break,
        }
    }
    writeln!(to)
}
