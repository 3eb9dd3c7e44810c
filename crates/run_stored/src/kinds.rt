// The kinds of cases that a program answers. A kind has its cases in the file KIND/cases, a line each, and the program writes for each kind
// the line `== KIND` and then the answers. With an argument, the name of a kind, it answers that kind's cases from standard input, without
// the line in front. What cannot be opened is told among the answers, so that they are not those that are stored; a read that fails ends the
// program with its error.
use crate::cases::{Case, Line};
use std::alloc::Global;
use std::env::FillError;
use std::io::{BufRead, BufReader, BufWriter, ErrorKind, Read, Write};
use std::rt::{Env, Files};
use std::{fs, io};

// A kind of cases, and what is answered to one. What is kept from line to line is lent to each answer.
pub trait Kind: Copy + 'static {
    type Kept;

    // The kinds, in the order in which they are answered.
    fn all() -> &'static [Self];

    fn name(self) -> &'static str;

    fn answer<W: Write>(
        self,
        alloc: Global,
        to: &mut W,
        case: &Case<'_>,
        kept: &mut Self::Kept,
    ) -> io::Result<()>;
}

// Answers the kind that the first argument names, or each kind. A line has room for so many bytes.
pub fn answer_kinds<K: Kind>(
    rt: &(impl Env + Files + Input + Print + Eprint + AllocGlobal),
    room: usize,
    kept: &mut K::Kept,
) -> io::Result<()> {
    let mut to = BufWriter::new(rt.alloc(), io::writer(rt))?;
    let mut line = Line::with_room(rt.alloc(), room)?;
    let mut name = [0u8; 16];
    match rt.arg(1, &mut name) {
        Ok(n) => match kind_named::<K>(&name[..n]) {
            Some(kind) => answer_cases(rt.alloc(), &mut to, kind, rt.reader(), &mut line, kept)?,
            None => writeln!(to, "no such kind")?,
        },
        Err(FillError::TooLong) => writeln!(to, "no such kind")?,
        Err(FillError::NotPresent) => {
            for kind in K::all() {
                answer_file(rt, &mut to, *kind, &mut line, kept)?;
            }
        }
    }
    to.flush()
}

fn kind_named<K: Kind>(name: &[u8]) -> Option<K> {
    K::all()
        .iter()
        .copied()
        .find(|kind| kind.name().as_bytes() == name)
}

fn answer_file<K: Kind>(
    rt: &(impl Files + Eprint + AllocGlobal),
    to: &mut impl Write,
    kind: K,
    line: &mut Line,
    kept: &mut K::Kept,
) -> io::Result<()> {
    let name = kind.name();
    writeln!(to, "== {name}")?;
    to.flush()?;
    let path = format!(in rt.alloc(); "{name}/cases")?;
    match fs::open(rt, path.as_str()) {
        Ok(file) => answer_cases(rt.alloc(), to, kind, file, line, kept),
        Err(e) => {
            eprintln!(rt; "{name}: {e}")?;
            writeln!(to, "not opened")?;
            to.flush()
        }
    }
}

// Answers each line that a file has, as soon as it is read.
fn answer_cases<K: Kind>(
    alloc: Global,
    to: &mut impl Write,
    kind: K,
    from: impl Read + Drop,
    line: &mut Line,
    kept: &mut K::Kept,
) -> io::Result<()> {
    line.clear();
    let mut from = BufReader::new(alloc, from)?;
    for _ in 0..u64::MAX {
        let size = match from.fill_buf() {
            Ok(part) => {
                answer_part(alloc, to, kind, part, line, kept)?;
                part.len()
            }
            Err(e) if e.kind() == ErrorKind::Interrupted => continue,
            Err(e) => return Err(e),
        };
        if size == 0 {
            break;
        }
        from.consume(size);
    }
    if line.is_begun() {
        writeln!(to, "no end of line")?;
    }
    Ok(())
}

// Answers each line that ends in a part of a file. What is behind the last one begins a line.
fn answer_part<K: Kind>(
    alloc: Global,
    to: &mut impl Write,
    kind: K,
    part: &[u8],
    line: &mut Line,
    kept: &mut K::Kept,
) -> io::Result<()> {
    for byte in part {
        match *byte {
            b'\n' => {
                match line.end() {
                    Some(case) => kind.answer(alloc, to, &case, kept)?,
                    None => writeln!(to, "no case")?,
                }
                line.clear();
                to.flush()?;
            }
            byte => line.push(byte),
        }
    }
    Ok(())
}
