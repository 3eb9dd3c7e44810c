// Nodes in preorder, each by its rules. One walk tells the first fault and whether the nodes are there: it goes on behind a fault. For our own
// crates: bytes of at most a sheet's limit, and an ordinal that is at most one more than its place.
ghost use Rattle.std.specs.Prelude.{◌+◌, ◌≤◌, ◌≡◌};
ghost use Rattle.sheet_decode.specs.Means.{Lost};
ghost use Rattle.checking.specs.Rules.{at_ordinal};
ghost use Rattle.node_rules.specs.Means.{fault_of};
ghost use Rattle.validate.specs.Means.{InLimit};
ghost use Rattle.validate.specs.WalkMeans.{found_of, Reached, NodeWalk, NodesWalk};

use crate::frames::{long_track, short_track, take_head, validate_keyframes};
use crate::kinds::validate_record;
use error::Refusal;
use sheet_decode::fields::{lost, take_kind};
use sheet_records::Kind;

// The first fault of some nodes, with the ordinal of its record; the place behind them, which is lost where they are not there, and the
// ordinal of what stands there.
#[derive(Clone, Copy)]
pub struct Walk {
    pub found: Option<(Refusal, usize)>,
    pub next: usize,
    pub ordinal: usize,
}

// The kind of a track.
const TRACK: u8 = 2;

// A record's fault, with the record's ordinal.
fn at_ordinal(ordinal: usize, fault: Result<(), Refusal>) -> Option<(Refusal, usize)>
    ensures { found_of result ≡ at_ordinal ordinal (fault_of fault) }
{
    match fault {
        Ok(()) => None,
        Err(refusal) => Some((refusal, ordinal)),
    }
}

// A node that holds no others: its fault and the place behind it.
fn walk_leaf(fault: Result<(), Refusal>, next: usize, ordinal: usize) -> Walk
    requires { ordinal ≤ 65535 }
    ensures { (found_of result.found ≡ at_ordinal ordinal (fault_of fault)) × (result.next ≡ next) × (result.ordinal ≡ ordinal + 1) }
{
    Walk {
        found: at_ordinal(ordinal, fault),
        next,
        ordinal: ordinal + 1,
    }
}

// No node.
fn walk_nowhere(s: &[u8], ordinal: usize) -> Walk
    ensures { Lost s.now result.next × (result.ordinal ≡ ordinal) }
{
    Walk {
        found: None,
        next: lost(s),
        ordinal,
    }
}

// The node at a place, with the nodes in it, its record being of an ordinal, inside containers of which `depth` more may follow. Tracks
// stand here and not among the other kinds, so that the array of a long one is on the stack of long ones alone.
#[cycle(validate_node_validate_nodes)]
fn validate_node(text: &[u8], s: &[u8], at: usize, ordinal: usize, list: u32, depth: usize) -> Walk
    requires { Reached s.now at ordinal × InLimit s.now }
    ensures { NodeWalk list text.now s.now depth at ordinal result }
{
    if s.len() <= at {
        return walk_nowhere(s, ordinal);
    }
    let k = take_kind(s, at, text.len());
    if k.kind == TRACK {
        let head = take_head(s, k.next, text.len());
        if head.count <= 64 {
            let frames = short_track(text, s, head.first, head.count);
            let track = validate_keyframes(text, s, head.count, frames);
            return walk_leaf(track.fault, track.next, ordinal);
        }
        let frames = long_track(text, s, head.first, head.count);
        let track = validate_keyframes(text, s, head.count, frames);
        return walk_leaf(track.fault, track.next, ordinal);
    }
    let r = validate_record(text, s, k.next, k.kind, list);
    let Kind::Container(count) = r.kind else {
        return walk_leaf(r.fault, r.next, ordinal);
    };
    if depth == 0 {
        return walk_nowhere(s, ordinal);
    }
    let inside = validate_nodes(text, s, r.next, count, ordinal + 1, list, depth - 1);
    Walk {
        found: at_ordinal(ordinal, r.fault).or(inside.found),
        next: inside.next,
        ordinal: inside.ordinal,
    }
}

// So many nodes from a place on, the first record being of an ordinal.
#[cycle(validate_node_validate_nodes)]
pub fn validate_nodes(
    text: &[u8],
    s: &[u8],
    at: usize,
    count: usize,
    ordinal: usize,
    list: u32,
    depth: usize,
) -> Walk
    requires { Reached s.now at ordinal × InLimit s.now }
    ensures { NodesWalk list text.now s.now depth at count ordinal result }
{
    let mut found = None;
    let mut a = at;
    let mut o = ordinal;
    for _ in 0..count {
        let w = validate_node(text, s, a, o, list, depth);
        found = found.or(w.found);
        a = w.next;
        o = w.ordinal;
    }
    Walk {
        found,
        next: a,
        ordinal: o,
    }
}
