// The program: reads a script from standard input and prints its lines and `accept N`, or `refuse R at P`.
#![tactic(auto)]

ghost use Rattle.std.specs.Prelude.{◌≤◌, length, IfOk};

use error::LineAnswer;
use std::io;
use std::io::{ErrorKind, Read, Write};

// A byte more than the longest script has, so that a longer one is still too long.
const INPUT_BYTES: usize = 16385;

fn main(rt: HostRuntime) -> io::Result<()> {
    let mut text = [0u8; INPUT_BYTES];
    let Ok(n) = read_input(&mut rt.reader(), &mut text) else {
        return eprintln!(rt; "stripc: standard input cannot be read");
    };
    if print_page(&mut io::writer(&rt), &text[..n]).is_err() {
        return eprintln!(rt; "stripc: standard output cannot be written");
    }
    Ok(())
}

// Reads the input to its end, or as far as there is room, and gives how many bytes it put there.
fn read_input(from: &mut impl Read, text: &mut [u8]) -> io::Result<usize>
    ensures { IfOk result (λ n. n ≤ length text.new) }
{
    let mut done = 0;
    while done < text.len() {
        match from.read(&mut text[done..])? {
            0 => break,
            more => done += more,
        }
    }
    Ok(done)
}

// Has all that is printed made on a page, with the Rust's list of colours, and writes it at once.
fn print_page(out: &mut impl Write, text: &[u8]) -> io::Result<()> {
    let mut scratch = [0u16; parser::SCRATCH_WORDS];
    let mut sheet = [0u8; print::SHEET_BYTES];
    let mut page = [0u8; print::PAGE_BYTES];
    match print::print(text, &mut scratch, &mut sheet, &mut page, 1) {
        LineAnswer::Accepted { length } => out.write_all(&page[..length]),
        LineAnswer::Refused {
            refusal: _,
            place: _,
        } => Err(io::Error::from(ErrorKind::WriteZero)),
    }
}
