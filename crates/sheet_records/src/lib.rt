// The walk over a sheet: whether bytes are one, and the record with a given ordinal.
#![tactic(auto)]

ghost use Rattle.std.specs.Prelude.{◌≡◌};
ghost use Rattle.text.specs.Words.{is_some};
ghost use Rattle.sheet.specs.Sheet.{node_form, forest, inner, decode};
ghost use Rattle.sheet_decode.specs.Means.{Reads};
ghost use Rattle.sheet_records.specs.Means.{record_form, record_view, record_in, bytes_at, pass, Walks, WalksAll};

use sheet_decode::fields::{lost, take_field, take_kind, take_span};
use sheet_decode::nodes::{
    take_at, take_color, take_draw, take_group, take_keyframes, take_morph, take_path, take_preset,
    take_spring, take_stagger, take_tween, take_waveform,
};

// A leaf, or a container and how many nodes stand in it.
#[derive(Clone, Copy)]
pub enum Kind {
    Leaf,
    Container(usize),
}

// A record: what its node holds, its kind, its count of keyframe entries, and the place behind it.
#[derive(Clone, Copy)]
pub struct RecordRead {
    pub v: Kind,
    pub kind: u8,
    pub entries: usize,
    pub next: usize,
}

// Where a record stands in a sheet, or that it has no such record, or that the bytes are no sheet.
#[derive(Clone, Copy)]
pub enum RecordAt {
    At { start: usize, size: usize },
    Nothing,
    NoSheet,
}

// A record alone: its kind, its start and its own fields, a container's count of nodes with them.
pub fn take_record(s: &[u8], at: usize, n: usize) -> RecordRead
    ensures { Reads (record_form n) record_view s.now at (result.v, result.kind, result.entries) result.next }
{
    let k = take_kind(s, at, n);
    let a = k.next;
    let kind = k.kind;
    let next = match kind {
        0 => take_tween(s, a, n).next,
        1 => take_spring(s, a, n).next,
        2 => {
            let t = take_keyframes(s, a, n);
            return RecordRead {
                v: Kind::Leaf,
                kind,
                entries: t.v.frames,
                next: t.next,
            };
        }
        3 | 4 => {
            let c = take_field(s, a, 2);
            return RecordRead {
                v: Kind::Container(c.v as usize),
                kind,
                entries: 0,
                next: c.next,
            };
        }
        5 => {
            let g = take_group(s, a);
            return RecordRead {
                v: Kind::Container(g.v.nodes),
                kind,
                entries: 0,
                next: g.next,
            };
        }
        6 => {
            let g = take_stagger(s, a);
            return RecordRead {
                v: Kind::Container(g.v.nodes),
                kind,
                entries: 0,
                next: g.next,
            };
        }
        7 => take_path(s, a, n).next,
        8 => take_morph(s, a, n).next,
        9 => take_draw(s, a, n).next,
        10 => take_color(s, a, n).next,
        11 => take_waveform(s, a).next,
        12 => take_preset(s, a, n).next,
        13 => take_span(s, a, n).next,
        _ => take_at(s, a).next,
    };
    RecordRead {
        v: Kind::Leaf,
        kind,
        entries: 0,
        next,
    }
}

// ---- the walk. It looks for a record: so many are left to be passed before it, and `from` is the place behind the last one
// passed of these, where the record begins once none is left.

// Passes a record that ends at a place.
fn pass(next: usize, left: &mut usize, from: &mut usize)
    ensures { (left.new, from.new) ≡ pass next left.old from.old }
{
    if *left == 0 {
        return;
    }
    *left -= 1;
    *from = next;
}

// Past the node at a place, with the nodes in it, inside containers of which `depth` more may follow.
#[cycle(walk_node_walk_nodes)]
fn walk_node(
    s: &[u8],
    at: usize,
    n: usize,
    depth: usize,
    left: &mut usize,
    from: &mut usize,
) -> usize
    ensures { Walks (node_form n (inner n depth)) n s.now at left.old from.old result left.new from.new }
{
    if s.len() <= at {
        return lost(s);
    }
    let r = take_record(s, at, n);
    let next = r.next;
    pass(next, left, from);
    match r.v {
        Kind::Leaf => next,
        Kind::Container(count) => {
            if depth == 0 {
                return lost(s);
            }
            walk_nodes(s, next, n, depth - 1, count, left, from)
        }
    }
}

// Past so many nodes.
#[cycle(walk_node_walk_nodes)]
fn walk_nodes(
    s: &[u8],
    at: usize,
    n: usize,
    depth: usize,
    count: usize,
    left: &mut usize,
    from: &mut usize,
) -> usize
    ensures { Walks (forest n (inner n depth) count) n s.now at left.old from.old result left.new from.new }
{
    let mut next = at;
    for _ in 0..count {
        next = walk_node(s, next, n, depth, left, from);
    }
    next
}

// Over bytes as a sheet for a text of so many bytes, the head being the first record.
fn walk_sheet(bytes: &[u8], text_len: usize, left: &mut usize, from: &mut usize) -> usize
    ensures { WalksAll text_len bytes.now left.old result left.new from.new }
{
    if 65535 < bytes.len() {
        return lost(bytes);
    }
    let count = take_field(bytes, 0, 2);
    pass(count.next, left, from);
    walk_nodes(
        bytes,
        count.next,
        text_len,
        16,
        count.v as usize,
        left,
        from,
    )
}

// Whether bytes are a sheet for a text of so many bytes.
pub fn is_sheet(bytes: &[u8], text_len: usize) -> bool
    ensures { result ≡ is_some (decode text_len bytes.now) }
{
    let mut left: usize = 0;
    let mut from: usize = 0;
    walk_sheet(bytes, text_len, &mut left, &mut from) == bytes.len()
}

// Whether bytes are a sheet, and where its record with an ordinal stands.
pub fn find_record(bytes: &[u8], text_len: usize, ordinal: usize) -> RecordAt
    ensures { bytes_at result bytes.now ≡ record_in text_len ordinal (decode text_len bytes.now) }
{
    let mut left = ordinal;
    let mut start: usize = 0;
    let end = walk_sheet(bytes, text_len, &mut left, &mut start);
    if end != bytes.len() {
        return RecordAt::NoSheet;
    }
    if ordinal == 0 {
        return RecordAt::At { start: 0, size: 2 };
    }
    if bytes.len() <= start {
        return RecordAt::Nothing;
    }
    let r = take_record(bytes, start, text_len);
    RecordAt::At {
        start,
        size: r.next - start,
    }
}
