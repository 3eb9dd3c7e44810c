// Answers vectors: reads lines of 64 bytes from standard input, and writes a line for each with what the crate `number`
// makes of it. A line is a kind, a sign, 16 hexadecimal digits and then 8, with a space after each; the rest is the same
// in words, and is not read. tools/number_vectors.py makes the lines and, by exact fractions, the answers.
#![tactic(auto)]

use number::Stored;
use run_stored::input::read_full;
use std::fmt::{Display, Formatter};
use std::io::Write;
use std::{fmt, io};

// How much of the input is read.
const INPUT_BYTES: usize = 65536;

fn main(rt: HostRuntime) -> io::Result<()> {
    let mut input = [0u8; INPUT_BYTES];
    let n = read_full(&mut rt.reader(), &mut input)?;
    let mut to = io::writer(&rt);
    let (lines, _) = input[..n].as_chunks::<64>();
    for line in lines {
        answer_line(&mut to, line)?;
    }
    Ok(())
}

fn answer_line(to: &mut impl Write, line: &[u8; 64]) -> io::Result<()> {
    let negative = line[2] == b'-';
    answer(to, line[0], negative, hex(&line[4..20]), hex(&line[21..29]))?;
    writeln!(to)
}

// The number that digits write, modulo 2^64.
fn hex(digits: &[u8]) -> u64 {
    digits.iter().fold(0, |n, b| n << 4 | digit(*b))
}

fn digit(b: u8) -> u64 {
    match b {
        b'a'.. => u64::from(b - b'a') + 10,
        b'0'.. => u64::from(b - b'0'),
        _ => 0,
    }
}

fn answer(to: &mut impl Write, kind: u8, negative: bool, a: u64, b: u64) -> io::Result<()> {
    match kind {
        b'D' => decimal(to, negative, a, b),
        b'%' => stored(to, number::percent(negative, a)),
        b'B' => write!(to, "{}", Pattern(float(a))),
        b'=' if number::duplicate(float(a), float(b)) => write!(to, "duplicate"),
        b'=' => write!(to, "apart"),
        b'W' => whole(to, number::whole(negative, a)),
        _ => Ok(()),
    }
}

fn decimal(to: &mut impl Write, negative: bool, digits: u64, places: u64) -> io::Result<()> {
    if places <= 9 {
        let places = places as usize;
        let bits = number::decimal_bits(negative, digits, places).bits;
        write!(to, "{bits:08x} ")?;
        stored(to, number::decimal(negative, digits, places))?;
    }
    Ok(())
}

fn stored(to: &mut impl Write, x: Stored) -> io::Result<()> {
    let rounded = if x.rounded { " rounded" } else { "" };
    write!(to, "{}{rounded}", Pattern(x.value))
}

// The float of which a number's last 32 bits are the pattern.
fn float(a: u64) -> f32 {
    number::f32_of_bits((a & 0xffff_ffff) as u32)
}

// A float, written as its bits.
#[derive(Clone, Copy)]
struct Pattern(f32);

impl Display for Pattern {
    fn fmt<W: fmt::Write>(&self, f: &mut Formatter<W>) -> fmt::Result {
        if self.0.is_nan() {
            write!(f, "nan")
        } else {
            let bits = number::bits_of(self.0);
            write!(f, "{bits:08x}")
        }
    }
}

fn whole(to: &mut impl Write, n: Option<u32>) -> io::Result<()> {
    match n {
        Some(n) => write!(to, "{n}"),
        None => write!(to, "refused"),
    }
}
