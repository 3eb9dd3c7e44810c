// The kind `convert`: a line is a text and a sheet; the answer what the converter answers, and the sheet that it leaves.
// tools/convert_cases.py makes the cases.
use run_stored::answers::Checked;
use run_stored::cases::Case;
use std::alloc::Global;
use std::io;
use std::io::Write;

// The sheet has room for a byte more than the longest case, so that a longer one is still too long.
const ROOM: usize = 65538;

pub fn answer(alloc: Global, to: &mut impl Write, case: &Case<'_>) -> io::Result<()> {
    let sheet = case.field(1);
    let mut sheet = sheet[..sheet.len().min(ROOM)].to_vec(alloc)?;
    let answer = Checked(convert::convert(case.field(0), &mut sheet));
    let sheet = hex::encode(alloc, sheet)?;
    writeln!(to, "{answer}\t{sheet}")
}
