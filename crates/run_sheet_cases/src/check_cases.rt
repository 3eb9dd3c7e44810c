// The kinds `check` and `color`. A line of `check` is a text and a sheet, which checking answers under the Rust's list of colours
// (oracle/store-checks.sh). A line of `color` is a list, a text and a sheet, which checking answers; or nothing and a string, whose four
// bytes are asked for (tools/color_cases.py).
use run_stored::answers::Checked;
use run_stored::cases::Case;
use std::io;
use std::io::Write;

pub fn answer(to: &mut impl Write, case: &Case<'_>) -> io::Result<()> {
    let answer = Checked(validate::check(case.field(0), case.field(1), 1));
    writeln!(to, "{answer}")
}

pub fn answer_color(to: &mut impl Write, case: &Case<'_>) -> io::Result<()> {
    let list = case.field(0);
    if list.is_empty() {
        return say_color(to, case.field(1));
    }
    let list = list
        .first_chunk()
        .map_or(0, |bytes| u32::from_be_bytes(*bytes));
    let answer = Checked(validate::check(case.field(1), case.field(2), list));
    writeln!(to, "{answer}")
}

fn say_color(to: &mut impl Write, string: &[u8]) -> io::Result<()> {
    let mut bytes = [7u8; 4];
    let answer = Checked(colors::color(string, &mut bytes));
    for byte in bytes {
        write!(to, "{byte} ")?;
    }
    writeln!(to, "{answer}")
}
