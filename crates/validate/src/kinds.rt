// A record that is no track: its fields, decoded, by the rules of its kind. For our own crates: a kind that there is, and that is not a track's.
ghost use Rattle.std.specs.Prelude.{ℕ, ◌<◌, List, ◌≡◌};
ghost use Rattle.sheet_records.specs.declared.Kind.TheVariants.{Leaf, Container};
ghost use Rattle.validate.specs.WalkMeans.{check_of, FieldsTell};
ghost use Rattle.sheet_nodes.specs.Means.{LeafKind, ContainerKind};

use error::Refusal;
use node_rules::rules::{
    validate_color, validate_draw, validate_morph, validate_path, validate_preset_call,
    validate_spring, validate_stagger, validate_tween, validate_waveform,
};
use sheet_decode::fields::{take_field, take_span};
use sheet_decode::nodes::{
    take_at, take_color, take_draw, take_group, take_morph, take_path, take_preset, take_spring,
    take_stagger, take_tween, take_waveform,
};
use sheet_records::Kind;

// A record's first fault, whether it holds nodes and how many, and the place behind it.
#[derive(Clone, Copy)]
pub struct RecordCheck {
    pub fault: Result<(), Refusal>,
    pub kind: Kind,
    pub next: usize,
}

fn leaf(fault: Result<(), Refusal>, next: usize) -> RecordCheck
    ensures { result ≡ check_of fault Leaf next }
{
    RecordCheck {
        fault,
        kind: Kind::Leaf,
        next,
    }
}

// A leaf of a kind: its fields at a place.
fn validate_leaf(text: &[u8], s: &[u8], at: usize, kind: u8, list: u32) -> RecordCheck
    requires { LeafKind kind × (kind ≡ 2 → ⊥) }
    ensures { FieldsTell list text.now s.now kind at result }
{
    let n = text.len();
    match kind {
        0 => {
            let x = take_tween(s, at, n);
            leaf(validate_tween(text, x.v), x.next)
        }
        1 => {
            let x = take_spring(s, at, n);
            leaf(validate_spring(x.v), x.next)
        }
        7 => {
            let x = take_path(s, at, n);
            leaf(validate_path(text, x.v), x.next)
        }
        8 => {
            let x = take_morph(s, at, n);
            leaf(validate_morph(text, x.v), x.next)
        }
        9 => {
            let x = take_draw(s, at, n);
            leaf(validate_draw(text, x.v), x.next)
        }
        10 => {
            let x = take_color(s, at, n);
            leaf(validate_color(text, x.v, list), x.next)
        }
        11 => {
            let x = take_waveform(s, at);
            leaf(validate_waveform(x.v), x.next)
        }
        12 => {
            let x = take_preset(s, at, n);
            leaf(validate_preset_call(text, x.v), x.next)
        }
        13 => leaf(Ok(()), take_span(s, at, n).next),
        _ => leaf(Ok(()), take_at(s, at).next),
    }
}

fn container(fault: Result<(), Refusal>, count: usize, next: usize) -> RecordCheck
    ensures { result ≡ check_of fault (Container count) next }
{
    RecordCheck {
        fault,
        kind: Kind::Container(count),
        next,
    }
}

// A container of a kind: its own fields at a place.
fn validate_container(s: &[u8], at: usize, kind: u8) -> RecordCheck
    requires { ContainerKind kind }
    ensures { (list : ℕ) (t : List ℕ) → FieldsTell list t s.now kind at result }
{
    match kind {
        5 => {
            let x = take_group(s, at);
            container(Ok(()), x.v.nodes, x.next)
        }
        6 => {
            let x = take_stagger(s, at);
            container(validate_stagger(x.v), x.v.nodes, x.next)
        }
        _ => {
            let count = take_field(s, at, 2);
            container(Ok(()), count.v as usize, count.next)
        }
    }
}

// The record of a kind, its fields at a place, without the nodes in it.
pub fn validate_record(text: &[u8], s: &[u8], at: usize, kind: u8, list: u32) -> RecordCheck
    requires { (kind < 15) × (kind ≡ 2 → ⊥) }
    ensures { FieldsTell list text.now s.now kind at result }
{
    match kind {
        3..=6 => validate_container(s, at, kind),
        _ => validate_leaf(text, s, at, kind, list),
    }
}
