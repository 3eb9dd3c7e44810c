// parser.rs: what stands between a container's keyword and its block. `sequence` and `parallel` have nothing there.
// The functions are for our own crates: each requires a cursor that stands in the text.
#![tactic(auto)]

ghost use Rattle.grammar.specs.Grammar.{grid_fields, grid_pattern, random_fields, random_pattern, parse_stagger_pattern};
ghost use Rattle.read_fields.specs.Means as fields;
ghost use Rattle.read_cursor.specs.Means.{Ready};
ghost use Rattle.read_heads.specs.Means.{GroupMeans, OriginMeans, GridFieldMeans, GridMeans, RandomFieldMeans, RandomMeans, PatternMeans, grid_inside, NamedMeans, opening_of, PlainOpening, one_opening, OpeningMeans, ValueMeans, StaggerMeans};

use ast::{GridOriginSpec, GroupMode, StaggerPatternSpec};
use error::Refusal;
use read_cursor::{CaseRead, Cursor, FloatRead, MarkRead, UintRead};
use read_fields::NextField;

#[derive(Clone, Copy)]
pub enum GroupRead {
    Is(GroupMode, Cursor),
    Refused(Refusal, usize),
}

#[derive(Clone, Copy)]
pub enum OriginRead {
    Is(GridOriginSpec, Cursor),
    Refused(Refusal, usize),
}

#[derive(Clone, Copy)]
pub enum PatternRead {
    Is(StaggerPatternSpec, Cursor),
    Refused(Refusal, usize),
}

#[derive(Clone, Copy)]
pub enum StaggerRead {
    Is(Option<StaggerPatternSpec>, Option<f32>, Cursor),
    Refused(Refusal, usize),
}

// ---- group

pub fn parse_group(text: &[u8], c: Cursor) -> GroupRead
    requires { Ready text.now c }
    ensures { GroupMeans text.now c result }
{
    match read_cursor::choice(text, c, words::List::GroupModes, Refusal::Malformed) {
        CaseRead::Refused(r, p) => GroupRead::Refused(r, p),
        CaseRead::Is(i, m) => GroupRead::Is(i as u8, m),
    }
}

// ---- grid

fn parse_grid_origin(text: &[u8], c: Cursor) -> OriginRead
    requires { Ready text.now c }
    ensures { OriginMeans text.now c result }
{
    match read_cursor::choice(text, c, words::List::GridOrigins, Refusal::Malformed) {
        CaseRead::Refused(r, p) => OriginRead::Refused(r, p),
        CaseRead::Is(i, m) => OriginRead::Is(i as u8, m),
    }
}

// The fields so far.
#[derive(Clone, Copy)]
pub struct GridFields {
    pub cols: Option<u32>,
    pub rows: Option<u32>,
    pub origin: Option<u8>,
}

#[derive(Clone, Copy)]
pub enum GridRead {
    Is(GridFields, Cursor),
    Refused(Refusal, usize),
}

// The value of a field, onto those so far.
fn grid_field(text: &[u8], c: Cursor, f: GridFields, i: usize) -> GridRead
    requires { Ready text.now c }
    ensures { GridFieldMeans text.now c f i result }
{
    let cols = f.cols;
    let rows = f.rows;
    let origin = f.origin;
    if i == 2 {
        return match parse_grid_origin(text, c) {
            OriginRead::Refused(r, p) => GridRead::Refused(r, p),
            OriginRead::Is(k, m) => {
                let origin = Some(k);
                GridRead::Is(GridFields { cols, rows, origin }, m)
            }
        };
    }
    match read_cursor::parse_uint(text, c) {
        UintRead::Refused(r, p) => GridRead::Refused(r, p),
        UintRead::Is(n, m) => {
            if i == 0 {
                let cols = Some(n);
                return GridRead::Is(GridFields { cols, rows, origin }, m);
            }
            let rows = Some(n);
            GridRead::Is(GridFields { cols, rows, origin }, m)
        }
    }
}

fn next_grid(text: &[u8], c: Cursor) -> NextField
    requires { Ready text.now c }
    ensures { fields.PairMeans text.now c grid_fields result }
{
    read_fields::next_pair(text, c, words::List::GridFields)
}

fn grid_fields(text: &[u8], c: Cursor) -> GridRead
    requires { Ready text.now c }
    ensures { GridMeans text.now c result }
{
    let mut m = c;
    let mut f = GridFields {
        cols: None,
        rows: None,
        origin: None,
    };
    loop {
        match next_grid(text, m) {
            NextField::Refused(r, p) => return GridRead::Refused(r, p),
            NextField::Done(e) => return GridRead::Is(f, e),
            NextField::Field(i, v) => match grid_field(text, v, f, i) {
                GridRead::Refused(r, p) => return GridRead::Refused(r, p),
                GridRead::Is(g, e) => {
                    let ate = read_cursor::eat(text, e, b',');
                    let next = ate.next;
                    if !ate.taken {
                        return GridRead::Is(g, next);
                    }
                    f = g;
                    m = next;
                }
            },
        }
    }
}

// Between the parentheses: both counts, and an origin or `center`.
fn grid_inside(text: &[u8], c: Cursor) -> PatternRead
    requires { Ready text.now c }
    ensures { PatternMeans 0 text.now c grid_inside result }
{
    match grid_fields(text, c) {
        GridRead::Refused(r, p) => PatternRead::Refused(r, p),
        GridRead::Is(f, m) => {
            let place = read_cursor::place(m);
            let counted = f.cols;
            let Some(cols) = counted else {
                return PatternRead::Refused(Refusal::StaggerGridIncomplete, place);
            };
            let counted_rows = f.rows;
            let Some(rows) = counted_rows else {
                return PatternRead::Refused(Refusal::StaggerGridIncomplete, place);
            };
            let written = f.origin;
            let origin = read_values::case_or(written, 4);
            PatternRead::Is(StaggerPatternSpec::Grid { cols, rows, origin }, m)
        }
    }
}

// Behind `grid`.
fn grid_pattern(text: &[u8], c: Cursor) -> PatternRead
    requires { Ready text.now c }
    ensures { PatternMeans 1 text.now c grid_pattern result }
{
    match read_cursor::mark(text, c, b'(') {
        MarkRead::Missing(p) => PatternRead::Refused(Refusal::Missing, p),
        MarkRead::Is(m) => match grid_inside(text, m) {
            PatternRead::Refused(r, p) => PatternRead::Refused(r, p),
            PatternRead::Is(x, n) => PatternRead::Is(x, read_cursor::leave_group(text, n, b')')),
        },
    }
}

// ---- random

// The fields so far.
#[derive(Clone, Copy)]
pub struct RandomFields {
    pub seed: Option<u32>,
    pub min: Option<f32>,
    pub max: Option<f32>,
}

#[derive(Clone, Copy)]
pub enum RandomRead {
    Is(RandomFields, Cursor),
    Refused(Refusal, usize),
}

// The value of a field, onto those so far.
fn random_field(text: &[u8], c: Cursor, f: RandomFields, i: usize) -> RandomRead
    requires { Ready text.now c }
    ensures { RandomFieldMeans text.now c f i result }
{
    let seed = f.seed;
    let min = f.min;
    let max = f.max;
    if i == 0 {
        return match read_cursor::parse_uint(text, c) {
            UintRead::Refused(r, p) => RandomRead::Refused(r, p),
            UintRead::Is(n, m) => {
                let seed = Some(n);
                RandomRead::Is(RandomFields { seed, min, max }, m)
            }
        };
    }
    match read_cursor::parse_float(text, c) {
        FloatRead::Refused(r, p) => RandomRead::Refused(r, p),
        FloatRead::Is(x, m) => {
            if i == 1 {
                let min = Some(x);
                return RandomRead::Is(RandomFields { seed, min, max }, m);
            }
            let max = Some(x);
            RandomRead::Is(RandomFields { seed, min, max }, m)
        }
    }
}

fn next_random(text: &[u8], c: Cursor) -> NextField
    requires { Ready text.now c }
    ensures { fields.PairMeans text.now c random_fields result }
{
    read_fields::next_pair(text, c, words::List::RandomFields)
}

fn random_fields(text: &[u8], c: Cursor) -> RandomRead
    requires { Ready text.now c }
    ensures { RandomMeans text.now c result }
{
    let mut m = c;
    let mut f = RandomFields {
        seed: None,
        min: None,
        max: None,
    };
    loop {
        match next_random(text, m) {
            NextField::Refused(r, p) => return RandomRead::Refused(r, p),
            NextField::Done(e) => return RandomRead::Is(f, e),
            NextField::Field(i, v) => match random_field(text, v, f, i) {
                RandomRead::Refused(r, p) => return RandomRead::Refused(r, p),
                RandomRead::Is(g, e) => {
                    let ate = read_cursor::eat(text, e, b',');
                    let next = ate.next;
                    if !ate.taken {
                        return RandomRead::Is(g, next);
                    }
                    f = g;
                    m = next;
                }
            },
        }
    }
}

// Behind `random`.
fn random_pattern(text: &[u8], c: Cursor) -> PatternRead
    requires { Ready text.now c }
    ensures { PatternMeans 1 text.now c random_pattern result }
{
    match read_cursor::mark(text, c, b'(') {
        MarkRead::Missing(p) => PatternRead::Refused(Refusal::Missing, p),
        MarkRead::Is(m) => match random_fields(text, m) {
            RandomRead::Refused(r, p) => PatternRead::Refused(r, p),
            RandomRead::Is(f, n) => {
                let seeded = f.seed;
                let low = f.min;
                let high = f.max;
                let seed = read_values::word_or(seeded, 0);
                let min = read_values::float_or(low, 0.0);
                let max = read_values::float_or(high, 0.1);
                PatternRead::Is(
                    StaggerPatternSpec::Random { seed, min, max },
                    read_cursor::leave_group(text, n, b')'),
                )
            }
        },
    }
}

// ---- stagger

// Behind a pattern's name.
fn named_pattern(text: &[u8], c: Cursor, i: usize) -> PatternRead
    requires { Ready text.now c }
    ensures { NamedMeans text.now c i result }
{
    match i {
        0 => grid_pattern(text, c),
        1 => random_pattern(text, c),
        2 => PatternRead::Is(StaggerPatternSpec::CenterOut, c),
        _ => PatternRead::Is(StaggerPatternSpec::EdgesIn, c),
    }
}

fn parse_stagger_pattern(text: &[u8], c: Cursor) -> PatternRead
    requires { Ready text.now c }
    ensures { PatternMeans 1 text.now c parse_stagger_pattern result }
{
    match read_cursor::choice(text, c, words::List::Patterns, Refusal::Malformed) {
        CaseRead::Refused(r, p) => PatternRead::Refused(r, p),
        CaseRead::Is(i, m) => named_pattern(text, m, i),
    }
}

// The fields so far.
#[derive(Clone, Copy)]
pub struct Opening {
    pub pattern: Option<StaggerPatternSpec>,
    pub delay: Option<f32>,
}

#[derive(Clone, Copy)]
pub enum OpeningRead {
    Is(Opening, Cursor),
    Refused(Refusal, usize),
}

// Behind a field's name: `:` and its value, onto those so far.
fn opening_value(text: &[u8], c: Cursor, f: Opening, i: usize) -> OpeningRead
    requires { Ready text.now c × PlainOpening f }
    ensures { ValueMeans text.now c f i result }
{
    let pattern = f.pattern;
    let delay = f.delay;
    match read_cursor::mark(text, c, b':') {
        MarkRead::Missing(p) => OpeningRead::Refused(Refusal::Missing, p),
        MarkRead::Is(m) => {
            if i == 0 {
                return match parse_stagger_pattern(text, m) {
                    PatternRead::Refused(r, p) => OpeningRead::Refused(r, p),
                    PatternRead::Is(x, n) => {
                        let pattern = Some(x);
                        OpeningRead::Is(Opening { pattern, delay }, n)
                    }
                };
            }
            match read_cursor::parse_float(text, m) {
                FloatRead::Refused(r, p) => OpeningRead::Refused(r, p),
                FloatRead::Is(x, n) => {
                    let delay = Some(x);
                    OpeningRead::Is(Opening { pattern, delay }, n)
                }
            }
        }
    }
}

// A field, onto those so far.
fn opening_field(text: &[u8], c: Cursor, f: Opening) -> OpeningRead
    requires { Ready text.now c × PlainOpening f }
    ensures { OpeningMeans text.now c (one_opening (opening_of f)) result }
{
    match read_cursor::choice(text, c, words::List::OpeningFields, Refusal::UnknownKeyword) {
        CaseRead::Refused(r, p) => OpeningRead::Refused(r, p),
        CaseRead::Is(i, m) => opening_value(text, m, f, i),
    }
}

pub fn parse_stagger(text: &[u8], c: Cursor) -> StaggerRead
    requires { Ready text.now c }
    ensures { StaggerMeans text.now c result }
{
    let mut m = c;
    let mut f = Opening {
        pattern: None,
        delay: None,
    };
    loop {
        if read_cursor::sees(m, b'{') {
            let pattern = f.pattern;
            let delay = f.delay;
            return StaggerRead::Is(pattern, delay, m);
        }
        match opening_field(text, m, f) {
            OpeningRead::Refused(r, p) => return StaggerRead::Refused(r, p),
            OpeningRead::Is(g, e) => {
                let ate = read_cursor::eat(text, e, b',');
                let next = ate.next;
                if !ate.taken {
                    let pattern = g.pattern;
                    let delay = g.delay;
                    return StaggerRead::Is(pattern, delay, next);
                }
                f = g;
                m = next;
            }
        }
    }
}
