// parser.rs: a node of any kind, and nodes up to a group's end, written into the sheet as they are read.
// The functions are for our own crates: each requires a cursor that stands in a text of at most 16,384 bytes, and a place that what was read so far can have reached.
#![tactic(auto)]

ghost use Rattle.std.specs.Prelude.{◌≡◌, ℕ, ◌+◌, ◌<◌, List};
ghost use Rattle.std.proofs.Math.Option.{none, some};
ghost use Rattle.text.specs.Words.{find};
ghost use Rattle.token.specs.Token.{tokens_from};
ghost use Rattle.grammar.specs.Grammar.{parse_sequence, parse_parallel, parse_group, parse_stagger, parse_node, block};
ghost use Rattle.read_cursor.specs.WordMeans.{at_of};
ghost use Rattle.read_cursor.specs.Means.{Ready, listed_in};
ghost use Rattle.read_arrays.specs.Means.{Room};
ghost use Rattle.read_blocks.specs.Means.{HeadMeans, node_words, KeywordMeans, BegunMeans, behind_word, leaf_kind_at, BraceMeans, Counted, BlockMeans, Headed, HeldMeans, Reached, NodeMeans, Standing, StepMeans, NodesMeans};

use crate::leaves::parse_leaf;
use error::Refusal;
use read_cursor::{Cursor, MarkRead};
use read_heads::{GroupRead, StaggerRead};
use read_node::NodeRead;

pub mod leaves;

// ---- the beginning of a node

// What a keyword begins: a leaf or a container, with its place in the table.
#[derive(Clone, Copy)]
pub enum Keyword {
    Leaf(usize),
    Container(usize),
}

#[derive(Clone, Copy)]
pub enum Begun {
    // A leaf: the place behind its record, and the cursor behind it.
    Leaf(usize, Cursor),
    // A container: its place in the table, the place behind the front of its record, and the cursor behind its keyword.
    Container(usize, usize, Cursor),
    Refused(Refusal, usize),
}

// What the word at a place of the list begins: the leaves stand first.
fn keyword_of(i: u8) -> Keyword
    ensures { (w : List ℕ) → find node_words 0 w ≡ some i → KeywordMeans w result }
{
    if i < 11 {
        return Keyword::Leaf(i as usize);
    }
    Keyword::Container(i as usize - 11)
}

// The kind of the leaf at a place of its table.
fn leaf_kind(i: usize) -> u8
    requires { i < 11 }
    ensures { result ≡ leaf_kind_at i }
{
    if i < 3 {
        return i as u8;
    }
    (i + 4) as u8
}

// Behind the keyword, of which the place in the list is i: the front of the node's record is written, and a leaf's fields.
fn begin_word(text: &[u8], sheet: &mut [u8], start: usize, i: u8, c: Cursor, out: usize) -> Begun
    requires { Ready text.now c × Room text.now (out + 3) × ((w : List ℕ) × (find node_words 0 w ≡ some i)) }
    ensures { (w : List ℕ) → find node_words 0 w ≡ some i → BegunMeans 0 text.now sheet.old sheet.new c out (behind_word start w) result }
{
    match keyword_of(i) {
        Keyword::Leaf(i) => {
            let at = sheet_encode::put_front(sheet, out, leaf_kind(i), start);
            match parse_leaf(text, sheet, c, at, i) {
                NodeRead::Refused(r, p) => Begun::Refused(r, p),
                NodeRead::Is(q, m) => Begun::Leaf(q, m),
            }
        }
        Keyword::Container(i) => {
            let at = sheet_encode::put_front(sheet, out, (i + 3) as u8, start);
            Begun::Container(i, at, c)
        }
    }
}

// What is refused where no word of the list stands.
fn no_node(text: &[u8], c: Cursor) -> Begun
    requires { Ready text.now c }
    ensures { (b a : List ℕ) (out : ℕ) → listed_in node_words (tokens_from text.now (at_of c)) ≡ none → BegunMeans 1 text.now b a c out parse_node result }
{
    if read_cursor::sees_name(text, c) {
        return Begun::Refused(
            Refusal::UnknownKeyword,
            read_cursor::place(read_cursor::advance(text, c)),
        );
    }
    Begun::Refused(Refusal::Missing, read_cursor::place(c))
}

// A leaf whole, or a container's keyword.
fn begin_node(text: &[u8], sheet: &mut [u8], c: Cursor, out: usize) -> Begun
    requires { Ready text.now c × Room text.now (out + 3) }
    ensures { BegunMeans 1 text.now sheet.old sheet.new c out parse_node result }
{
    match read_cursor::listed(text, c, words::List::Nodes) {
        None => no_node(text, c),
        Some(i) => begin_word(
            text,
            sheet,
            read_cursor::place(c),
            i,
            read_cursor::advance(text, c),
            out,
        ),
    }
}

// ---- what stands before a container's block: its fields. The answer is the place of the count, which is left open.

fn group_head(text: &[u8], sheet: &mut [u8], c: Cursor, out: usize) -> NodeRead
    requires { Ready text.now c × Room text.now out }
    ensures { HeadMeans text.now sheet.old sheet.new c out parse_group result }
{
    match read_heads::parse_group(text, c) {
        GroupRead::Refused(r, p) => NodeRead::Refused(r, p),
        GroupRead::Is(mode, m) => NodeRead::Is(sheet_encode::put_byte(sheet, out, mode), m),
    }
}

fn stagger_head(text: &[u8], sheet: &mut [u8], c: Cursor, out: usize) -> NodeRead
    requires { Ready text.now c × Room text.now out }
    ensures { HeadMeans text.now sheet.old sheet.new c out parse_stagger result }
{
    match read_heads::parse_stagger(text, c) {
        StaggerRead::Refused(r, p) => NodeRead::Refused(r, p),
        StaggerRead::Is(pattern, delay, m) => {
            let delay_at = sheet_encode::put_opt_pattern(sheet, out, pattern);
            NodeRead::Is(sheet_encode::put_opt_float(sheet, delay_at, delay), m)
        }
    }
}

#[derive(Clone, Copy)]
pub enum BraceRead {
    Is(Cursor),
    Refused(Refusal, usize),
}

// The `{` of a container's block, where `depth` containers more are allowed.
fn open_block(text: &[u8], c: Cursor, depth: usize) -> BraceRead
    requires { Ready text.now c }
    ensures { BraceMeans text.now c depth result }
{
    match read_cursor::mark(text, c, b'{') {
        MarkRead::Missing(p) => BraceRead::Refused(Refusal::Missing, p),
        MarkRead::Is(m) => {
            if depth == 0 {
                return BraceRead::Refused(Refusal::TooManyNested, read_cursor::place(c));
            }
            BraceRead::Is(m)
        }
    }
}

// ---- nodes and containers call each other; a container is read behind the front of its record; `depth` containers more are allowed

// The place behind a node's records, the cursor behind it, and how many records there are.
#[derive(Clone, Copy)]
pub enum ParsedNode {
    Is(usize, Cursor, usize),
    Refused(Refusal, usize),
}

// Nodes beside each other: the place behind their records, the cursor behind them, how many they are, and how many records there are.
#[derive(Clone, Copy)]
pub struct Siblings {
    pub end: usize,
    pub next: Cursor,
    pub width: usize,
    pub records: usize,
}

// The nodes so far, to which more may come; or all of them.
#[derive(Clone, Copy)]
pub enum NodesNext {
    More(Siblings),
    Done(Siblings),
    Refused(Refusal, usize),
}

#[derive(Clone, Copy)]
pub enum ParsedNodes {
    Is(Siblings),
    Refused(Refusal, usize),
}

// The block of a container, its count at `count`; the records are those of the nodes in it, and the container's own.
#[cycle(nodes_step_parse_block_parse_group_parse_node_parse_nodes_parse_parallel_parse_sequence_parse_stagger)]
fn parse_block(text: &[u8], sheet: &mut [u8], c: Cursor, count: usize, depth: usize) -> ParsedNode
    requires { Ready text.now c × Counted text.now c count }
    ensures { BlockMeans text.now sheet.old sheet.new c count depth result }
{
    match open_block(text, c, depth) {
        BraceRead::Refused(r, p) => ParsedNode::Refused(r, p),
        BraceRead::Is(m) => match parse_nodes(text, sheet, m, count + 2, depth - 1) {
            ParsedNodes::Refused(r, p) => ParsedNode::Refused(r, p),
            ParsedNodes::Is(t) => {
                let n = t.next;
                sheet_encode::patch_count(sheet, count, t.width);
                ParsedNode::Is(
                    t.end,
                    read_cursor::leave_group(text, n, b'}'),
                    t.records + 1,
                )
            }
        },
    }
}

#[cycle(nodes_step_parse_block_parse_group_parse_node_parse_nodes_parse_parallel_parse_sequence_parse_stagger)]
fn parse_sequence(text: &[u8], sheet: &mut [u8], c: Cursor, out: usize, depth: usize) -> ParsedNode
    requires { Ready text.now c × Headed text.now c out }
    ensures { HeldMeans parse_sequence text.now sheet.old sheet.new c out depth result }
{
    parse_block(text, sheet, c, out, depth)
}

#[cycle(nodes_step_parse_block_parse_group_parse_node_parse_nodes_parse_parallel_parse_sequence_parse_stagger)]
fn parse_parallel(text: &[u8], sheet: &mut [u8], c: Cursor, out: usize, depth: usize) -> ParsedNode
    requires { Ready text.now c × Headed text.now c out }
    ensures { HeldMeans parse_parallel text.now sheet.old sheet.new c out depth result }
{
    parse_block(text, sheet, c, out, depth)
}

#[cycle(nodes_step_parse_block_parse_group_parse_node_parse_nodes_parse_parallel_parse_sequence_parse_stagger)]
fn parse_group(text: &[u8], sheet: &mut [u8], c: Cursor, out: usize, depth: usize) -> ParsedNode
    requires { Ready text.now c × Headed text.now c out }
    ensures { HeldMeans parse_group text.now sheet.old sheet.new c out depth result }
{
    match group_head(text, sheet, c, out) {
        NodeRead::Refused(r, p) => ParsedNode::Refused(r, p),
        NodeRead::Is(count, m) => parse_block(text, sheet, m, count, depth),
    }
}

#[cycle(nodes_step_parse_block_parse_group_parse_node_parse_nodes_parse_parallel_parse_sequence_parse_stagger)]
fn parse_stagger(text: &[u8], sheet: &mut [u8], c: Cursor, out: usize, depth: usize) -> ParsedNode
    requires { Ready text.now c × Headed text.now c out }
    ensures { HeldMeans parse_stagger text.now sheet.old sheet.new c out depth result }
{
    match stagger_head(text, sheet, c, out) {
        NodeRead::Refused(r, p) => ParsedNode::Refused(r, p),
        NodeRead::Is(count, m) => parse_block(text, sheet, m, count, depth),
    }
}

// A node.
#[cycle(nodes_step_parse_block_parse_group_parse_node_parse_nodes_parse_parallel_parse_sequence_parse_stagger)]
pub fn parse_node(text: &[u8], sheet: &mut [u8], c: Cursor, out: usize, depth: usize) -> ParsedNode
    requires { Ready text.now c × Reached text.now c out }
    ensures { NodeMeans 1 (parse_node (block depth)) text.now sheet.old sheet.new c out depth result }
{
    match begin_node(text, sheet, c, out) {
        Begun::Refused(r, p) => ParsedNode::Refused(r, p),
        Begun::Leaf(q, m) => ParsedNode::Is(q, m, 1),
        Begun::Container(i, at, m) => match i {
            0 => parse_sequence(text, sheet, m, at, depth),
            1 => parse_parallel(text, sheet, m, at, depth),
            2 => parse_group(text, sheet, m, at, depth),
            _ => parse_stagger(text, sheet, m, at, depth),
        },
    }
}

// The group's end ends a list of nodes, a `;` is passed, and a node is added.
#[cycle(nodes_step_parse_block_parse_group_parse_node_parse_nodes_parse_parallel_parse_sequence_parse_stagger)]
fn nodes_step(text: &[u8], sheet: &mut [u8], t: Siblings, depth: usize) -> NodesNext
    requires { Standing text.now t }
    ensures { StepMeans text.now sheet.old sheet.new depth t result }
{
    let c = t.next;
    if read_cursor::ends(c) {
        return NodesNext::Done(t);
    }
    if read_cursor::sees(c, b';') {
        let next = read_cursor::advance(text, c);
        return NodesNext::More(Siblings { next, ..t });
    }
    match parse_node(text, sheet, c, t.end, depth) {
        ParsedNode::Refused(r, p) => NodesNext::Refused(r, p),
        ParsedNode::Is(end, next, more) => NodesNext::More(Siblings {
            end,
            next,
            width: t.width + 1,
            records: t.records + more,
        }),
    }
}

// Nodes up to the group's end.
#[cycle(nodes_step_parse_block_parse_group_parse_node_parse_nodes_parse_parallel_parse_sequence_parse_stagger)]
pub fn parse_nodes(
    text: &[u8],
    sheet: &mut [u8],
    c: Cursor,
    out: usize,
    depth: usize,
) -> ParsedNodes
    requires { Ready text.now c × Reached text.now c out }
    ensures { NodesMeans text.now sheet.old sheet.new c out depth result }
{
    let mut t = Siblings {
        end: out,
        next: c,
        width: 0,
        records: 0,
    };
    loop {
        match nodes_step(text, sheet, t, depth) {
            NodesNext::Refused(r, p) => return ParsedNodes::Refused(r, p),
            NodesNext::Done(u) => return ParsedNodes::Is(u),
            NodesNext::More(u) => {
                t = u;
            }
        }
    }
}
