// Bytes, numbers, truth values, floats, names and strings, and the kind and start of a record. For our own crates: a byte is read below a bound above 0, a number in at most 4 bytes.
ghost use Rattle.std.specs.Prelude.{◌+◌, ◌^◌, ◌≤◌, ◌<◌, length};
ghost use Rattle.number.specs.Number.{f32};
ghost use Rattle.codec.specs.Codec.{below, big, each};
ghost use Rattle.sheet.specs.Sheet.{word, flag, span_form};
ghost use Rattle.ast.specs.Means.{span_view};
ghost use Rattle.sheet_decode.specs.Means.{Lost, Reads, Number, KindAndStart, same};

use ast::Span;

// A value, and the place behind it.
#[derive(Clone, Copy)]
pub struct Taken<T> {
    pub v: T,
    pub next: usize,
}

// A record's kind, the start of its node's keyword, and the place behind them.
#[derive(Clone, Copy)]
pub struct KindRead {
    pub kind: u8,
    pub start: usize,
    pub next: usize,
}

// The place behind a value that is none.
pub fn lost(s: &[u8]) -> usize
    ensures { Lost s.now result }
{
    s.len() + 1
}

// A byte below n.
pub fn take_byte(s: &[u8], at: usize, n: u8) -> Taken<u8>
    requires { 0 < n }
    ensures { Number (below n) n s.now at result.v result.next }
{
    if at < s.len() {
        let b = s[at];
        if b < n {
            return Taken { v: b, next: at + 1 };
        }
    }
    Taken {
        v: 0,
        next: lost(s),
    }
}

// A number in so many bytes, the highest first.
pub fn take_field(s: &[u8], at: usize, width: usize) -> Taken<u32>
    requires { width ≤ 4 }
    ensures { Number (big width) (256 ^ width) s.now at result.v result.next }
{
    if s.len() < at {
        return Taken {
            v: 0,
            next: lost(s),
        };
    }
    if s.len() - at < width {
        return Taken {
            v: 0,
            next: lost(s),
        };
    }
    let mut v: u32 = 0;
    for k in 0..width {
        v = v * 256 + s[at + k] as u32;
    }
    Taken {
        v,
        next: at + width,
    }
}

pub fn take_flag(s: &[u8], at: usize) -> Taken<bool>
    ensures { Reads flag same s.now at result.v result.next }
{
    let b = take_byte(s, at, 2);
    Taken {
        v: b.v == 1,
        next: b.next,
    }
}

// Any bit pattern; every NaN's gives a NaN.
pub fn take_float(s: &[u8], at: usize) -> Taken<f32>
    ensures { Reads word f32 s.now at result.v result.next }
{
    let w = take_field(s, at, 4);
    Taken {
        v: number::f32_of_bits(w.v),
        next: w.next,
    }
}

// A name or a string within a text of n bytes.
pub fn take_span(s: &[u8], at: usize, n: usize) -> Taken<Span>
    ensures { Reads (span_form n) span_view s.now at result.v result.next }
{
    let a = take_field(s, at, 2);
    let b = take_field(s, a.next, 2);
    let start = a.v as usize;
    let size = b.v as usize;
    let v = Span { start, size };
    if start + size <= n {
        Taken { v, next: b.next }
    } else {
        Taken { v, next: lost(s) }
    }
}

// A record's kind, and the start of its node's keyword, which lies within a text of n bytes.
pub fn take_kind(s: &[u8], at: usize, n: usize) -> KindRead
    ensures { KindAndStart n s.now at result.kind result.start result.next }
{
    let k = take_byte(s, at, 15);
    let a = take_field(s, k.next, 2);
    let start = a.v as usize;
    if start < n {
        KindRead {
            kind: k.v,
            start,
            next: a.next,
        }
    } else {
        KindRead {
            kind: k.v,
            start,
            next: lost(s),
        }
    }
}

// Past so many words.
pub fn skip_words(s: &[u8], at: usize, n: usize) -> usize
    ensures { Reads (each word n) length s.now at n result }
{
    let mut next = at;
    for _ in 0..n {
        next = take_field(s, next, 4).next;
    }
    next
}
