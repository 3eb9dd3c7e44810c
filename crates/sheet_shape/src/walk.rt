// The walk over a sheet whose frames' numbers have w bytes each: 4 in a sheet, 0 in the first part of a planed one. Each
// reader gives how many numbers it passed and the place behind; a place is lost where there is no value, as in `sheet_decode`.
// For our own crates: w is at most 4.
ghost use Rattle.std.specs.Prelude.{◌≡◌, ◌+◌, ◌≤◌, if◌then◌else◌};
ghost use Rattle.codec.specs.Codec.{each};
ghost use Rattle.sheet_decode.specs.Means.{Reads};
ghost use Rattle.sheet.specs.Sheet.{value_form_of, entry_form_of, node_form_of, forest_of, inner_of, sheet_of};
ghost use Rattle.sheet_shape.specs.Means.{is_scalar, scalar_frame, frame_tally, node_tally, tally, record_form_of, node_view};

use sheet_decode::fields::{lost, skip_words, take_byte, take_field, take_kind, take_span};
use sheet_decode::optional::take_opt;
use sheet_decode::values::{take_easing, take_loop};
use sheet_records::{Kind, take_record};

// A frame's value, or a frame: whether the value is a scalar.
#[derive(Clone, Copy)]
pub struct FrameRead {
    pub scalar: bool,
    pub next: usize,
}

// How many numbers were passed.
#[derive(Clone, Copy)]
pub struct Tally {
    pub numbers: usize,
    pub next: usize,
}

// A record: what its node holds, and its numbers.
#[derive(Clone, Copy)]
pub struct NodeRead {
    pub v: Kind,
    pub numbers: usize,
    pub next: usize,
}

// A frame's value.
fn take_frame_value(s: &[u8], at: usize, w: usize) -> FrameRead
    requires { w ≤ 4 }
    ensures { Reads (value_form_of w) is_scalar s.now at result.scalar result.next }
{
    let k = take_byte(s, at, 2);
    if k.v == 0 {
        let x = take_field(s, k.next, w);
        return FrameRead {
            scalar: true,
            next: x.next,
        };
    }
    let c = take_field(s, k.next, 2);
    let count = c.v as usize;
    FrameRead {
        scalar: false,
        next: skip_words(s, c.next, count),
    }
}

// A frame.
pub fn take_frame(s: &[u8], at: usize, n: usize, w: usize) -> FrameRead
    requires { w ≤ 4 }
    ensures { Reads (entry_form_of w n) scalar_frame s.now at result.scalar result.next }
{
    let kind = take_byte(s, at, 2);
    let time = take_field(s, kind.next, w);
    let value = take_frame_value(s, time.next, w);
    let easing = take_opt(s, value.next, |a| take_easing(s, a, n));
    FrameRead {
        scalar: value.scalar,
        next: easing.next,
    }
}

// How many numbers a frame has.
pub fn numbers_of(scalar: bool) -> usize
    ensures { result ≡ (if scalar then 2 else 1) }
{
    if scalar { 2 } else { 1 }
}

// So many frames.
pub fn take_frames(s: &[u8], at: usize, n: usize, w: usize, count: usize) -> Tally
    requires { w ≤ 4 }
    ensures { Reads (each (entry_form_of w n) count) frame_tally s.now at result.numbers result.next }
{
    let mut next = at;
    let mut numbers: usize = 0;
    for _ in 0..count {
        let frame = take_frame(s, next, n, w);
        numbers = numbers.wrapping_add(numbers_of(frame.scalar));
        next = frame.next;
    }
    Tally { numbers, next }
}

// A record alone.
pub fn take_node(s: &[u8], at: usize, n: usize, w: usize) -> NodeRead
    requires { w ≤ 4 }
    ensures { Reads (record_form_of w n) node_view s.now at (result.v, result.numbers) result.next }
{
    let k = take_kind(s, at, n);
    if k.kind == 2 {
        let target = take_span(s, k.next, n);
        let count = take_field(s, target.next, 2);
        let frames = take_frames(s, count.next, n, w, count.v as usize);
        let loop_mode = take_opt(s, frames.next, |a| take_loop(s, a));
        return NodeRead {
            v: Kind::Leaf,
            numbers: frames.numbers,
            next: loop_mode.next,
        };
    }
    let r = take_record(s, at, n);
    NodeRead {
        v: r.v,
        numbers: 0,
        next: r.next,
    }
}

// Past the node at a place, with the nodes in it, inside containers of which `depth` more may follow.
#[cycle(pass_node_pass_nodes)]
fn pass_node(s: &[u8], at: usize, n: usize, w: usize, depth: usize) -> Tally
    requires { w ≤ 4 }
    ensures { Reads (node_form_of w n (inner_of w n depth)) node_tally s.now at result.numbers result.next }
{
    if s.len() <= at {
        return Tally {
            numbers: 0,
            next: lost(s),
        };
    }
    let r = take_node(s, at, n, w);
    match r.v {
        Kind::Leaf => Tally {
            numbers: r.numbers,
            next: r.next,
        },
        Kind::Container(count) => {
            if depth == 0 {
                return Tally {
                    numbers: 0,
                    next: lost(s),
                };
            }
            pass_nodes(s, r.next, n, w, depth - 1, count)
        }
    }
}

// Past so many nodes.
#[cycle(pass_node_pass_nodes)]
fn pass_nodes(s: &[u8], at: usize, n: usize, w: usize, depth: usize, count: usize) -> Tally
    requires { w ≤ 4 }
    ensures { Reads (forest_of w n (inner_of w n depth) count) tally s.now at result.numbers result.next }
{
    let mut next = at;
    let mut numbers: usize = 0;
    for _ in 0..count {
        let node = pass_node(s, next, n, w, depth);
        numbers = numbers.wrapping_add(node.numbers);
        next = node.next;
    }
    Tally { numbers, next }
}

// Past a head and its nodes.
pub fn pass_sheet(s: &[u8], n: usize, w: usize) -> Tally
    requires { w ≤ 4 }
    ensures { Reads (sheet_of w n) tally s.now 0 result.numbers result.next }
{
    let count = take_field(s, 0, 2);
    pass_nodes(s, count.next, n, w, 16, count.v as usize)
}
