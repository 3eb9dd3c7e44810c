// Runs the text rules on many texts: reads lines of hexadecimal from standard input, and writes for each what
// `token::split` answers for its bytes. oracle/store-token.sh makes the lines and the answers.
#![tactic(auto)]

ghost use Rattle.std.specs.Prelude.{◌<◌, ◌≤◌, length, vec_len, IfOk};

use run_stored::answers::Refused;
use run_stored::input::read_full;
use std::alloc::{AllocError, Global};
use std::io;
use std::io::Write;
use token::SplitAnswer;

// How much of the input is read.
const INPUT_BYTES: usize = 65536;

// The longest text. What a line has more is left out.
const TEXT_BYTES: usize = 1024;

fn main(rt: HostRuntime) -> io::Result<()> {
    let mut input = [0u8; INPUT_BYTES];
    let n = read_full(&mut rt.reader(), &mut input)?;
    let mut to = io::writer(&rt);
    for line in input[..n].split_inclusive(|b| !b.is_ascii_hexdigit()) {
        let text = text_of(rt.alloc(), line)?;
        answer(&mut to, text.as_slice())?;
    }
    Ok(())
}

// The bytes that the pairs of digits of a line stand for, which has an end behind the digits, but for the last one.
fn text_of(alloc: Global, line: &[u8]) -> Result<Vec<u8>, AllocError>
    ensures { IfOk result (λ text. vec_len text ≤ 1024) }
{
    let digits = match line {
        [digits @ .., end] if !end.is_ascii_hexdigit() => digits,
        _ => line,
    };
    let (pairs, _) = digits.as_chunks::<2>();
    let mut text: Vec<u8> = pairs
        .iter()
        .map(|[high, low]| digit(*high) * 16 + digit(*low))
        .collect(alloc)?;
    text.truncate(TEXT_BYTES);
    Ok(text)
}

// The value of a digit, capitals for ten and more.
fn digit(b: u8) -> u8
    ensures { result < 16 }
{
    match b {
        b'A'.. => (b - b'A') % 6 + 10,
        b'0'.. => (b - b'0') % 10,
        _ => 0,
    }
}

fn answer(to: &mut impl Write, text: &[u8]) -> io::Result<()>
    requires { length text.now ≤ 1024 }
{
    let mut scratch = [0u16; 64];
    match token::split(text, &mut scratch) {
        SplitAnswer::Accepted => writeln!(to, "accept"),
        SplitAnswer::Refused { refusal, place } => writeln!(to, "{}", Refused { refusal, place }),
    }
}
