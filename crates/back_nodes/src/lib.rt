// Nodes in preorder, each written behind the one before.
#![tactic(auto, unfolding(text::specs::Bytes::one_of, pieces::specs::Pieces::word_like, digits::specs::Numeral::all))]

ghost use Rattle.std.specs.Prelude.{◌≡◌};
ghost use Rattle.sheet_records.specs.declared.Kind.TheVariants.{Leaf};
ghost use Rattle.sheet_nodes.specs.Means.{LeafKind, ContainerKind};
ghost use Rattle.back_spelling.specs.Means.{page_of};
ghost use Rattle.back_nodes.specs.Means.{FieldsTold, Begun, HeadTold, RecordTold, NodePut, NodesPut};

use back_copying::fields::put_choice;
use back_easings::patterns::copy_opening;
use back_leaves::leaves::{
    copy_at, copy_color, copy_draw, copy_keyframes, copy_label, copy_morph, copy_path, copy_preset,
    copy_spring, copy_tween, copy_waveform,
};
use back_spelling::PieceWriter;
use sheet_decode::fields::{take_byte, take_field, take_kind};
use sheet_records::Kind;

const MODES: [&str; 2] = ["sequence", "parallel"];

// A record that was written, a container's up to its `{`: whether it holds nodes and how many, and the place behind it.
#[derive(Clone, Copy)]
pub struct RecordCopy {
    pub kind: Kind,
    pub next: usize,
}

// A leaf of a kind, with its word.
fn copy_leaf(text: &[u8], s: &[u8], at: usize, kind: u8, writer: &mut PieceWriter) -> usize
    requires { LeafKind kind }
    ensures { FieldsTold text.now s.now kind at (page_of writer.old) (page_of writer.new) Leaf result }
{
    match kind {
        0 => {
            writer.put_word(b"tween");
            copy_tween(text, s, at, writer)
        }
        1 => {
            writer.put_word(b"spring");
            copy_spring(text, s, at, writer)
        }
        2 => {
            writer.put_word(b"keyframes");
            copy_keyframes(text, s, at, writer)
        }
        7 => {
            writer.put_word(b"path");
            copy_path(text, s, at, writer)
        }
        8 => {
            writer.put_word(b"morph");
            copy_morph(text, s, at, writer)
        }
        9 => {
            writer.put_word(b"draw");
            copy_draw(text, s, at, writer)
        }
        10 => {
            writer.put_word(b"color");
            copy_color(text, s, at, writer)
        }
        11 => {
            writer.put_word(b"waveform");
            copy_waveform(s, at, writer)
        }
        12 => {
            writer.put_word(b"preset");
            copy_preset(text, s, at, writer)
        }
        13 => {
            writer.put_word(b"label");
            copy_label(text, s, at, writer)
        }
        _ => {
            writer.put_word(b"at");
            copy_at(s, at, writer)
        }
    }
}

// The count of a container's nodes, and its `{`.
fn holding(s: &[u8], at: usize, writer: &mut PieceWriter) -> RecordCopy
    ensures { Begun s.now at (page_of writer.old) (page_of writer.new) result.kind result.next }
{
    let count = take_field(s, at, 2);
    writer.put_mark(b'{');
    RecordCopy {
        kind: Kind::Container(count.v as usize),
        next: count.next,
    }
}

// A container's word and what stands before its block.
fn copy_head(s: &[u8], at: usize, kind: u8, writer: &mut PieceWriter) -> usize
    requires { ContainerKind kind }
    ensures { HeadTold s.now kind at (page_of writer.old) (page_of writer.new) result }
{
    match kind {
        3 => {
            writer.put_word(b"sequence");
            at
        }
        4 => {
            writer.put_word(b"parallel");
            at
        }
        5 => {
            let mode = take_byte(s, at, 2);
            writer.put_word(b"group");
            put_choice(writer, &MODES, mode.v as usize);
            mode.next
        }
        _ => {
            writer.put_word(b"stagger");
            copy_opening(s, at, writer)
        }
    }
}

// The record at a place.
fn copy_record(text: &[u8], s: &[u8], at: usize, writer: &mut PieceWriter) -> RecordCopy
    ensures { RecordTold text.now s.now at (page_of writer.old) (page_of writer.new) result.kind result.next }
{
    let k = take_kind(s, at, text.len());
    match k.kind {
        3..=6 => {
            let head = copy_head(s, k.next, k.kind, writer);
            holding(s, head, writer)
        }
        _ => RecordCopy {
            kind: Kind::Leaf,
            next: copy_leaf(text, s, k.next, k.kind, writer),
        },
    }
}

// The node at a place, with the nodes in it.
#[cycle(copy_node_copy_nodes)]
fn copy_node(text: &[u8], s: &[u8], at: usize, writer: &mut PieceWriter) -> usize
    ensures { NodePut text.now s.now at (page_of writer.old) (page_of writer.new) result }
{
    if s.len() <= at {
        return at;
    }
    let r = copy_record(text, s, at, writer);
    match r.kind {
        Kind::Leaf => r.next,
        Kind::Container(count) => {
            let next = copy_nodes(text, s, r.next, count, writer);
            writer.put_mark(b'}');
            writer.put_mark(b';');
            next
        }
    }
}

// So many nodes from a place on.
#[cycle(copy_node_copy_nodes)]
pub fn copy_nodes(text: &[u8], s: &[u8], at: usize, count: usize, writer: &mut PieceWriter) -> usize
    ensures same_buffer { writer.new.out.ghost_name ≡ writer.old.out.ghost_name }
    ensures nodes { NodesPut text.now s.now at count (page_of writer.old) (page_of writer.new) result }
{
    let mut next = at;
    for _k in 0..count {
        next = copy_node(text, s, next, writer);
    }
    next
}
