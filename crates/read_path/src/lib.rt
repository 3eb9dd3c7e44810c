// parser.rs: the node path: its fields, its record, and its reader behind the keyword. For our own
// crates: each function requires a cursor that stands in a text of at most 16,384 bytes, and a place below 2^30.
#![tactic(auto)]

ghost use Rattle.read_cursor.specs.Means.{Ready};
ghost use Rattle.read_path.specs.Means.{OffsetMeans, PathStepMeans, PathListMeans, PlainPath, path_of, path_end};
ghost use Rattle.std.specs.Prelude.{◌^◌, ◌<◌};
ghost use Rattle.read_node.specs.Means.{Put, LeafMeans, EndMeans};
ghost use Rattle.sheet_encode.specs.Means.{span_of};
ghost use Rattle.grammar.specs.Grammar.{parse_path};
ghost use Rattle.read_arrays.specs.Means.{Room};

use ast::{EasingSpec, LoopSpec, PathSpec, Span};
use error::Refusal;
use read_cursor::{CaseRead, Cursor, FloatRead, MarkRead, TruthRead, WordRead};
use read_fields::NextField;
use read_node::NodeRead;
use read_values::{EasingRead, LoopRead, PairRead};

// ---- the fields

// What the fields of a path say.
#[derive(Clone, Copy)]
pub struct PathFields {
    pub duration: Option<f32>,
    pub easing: Option<EasingSpec>,
    pub auto_rotate: Option<bool>,
    pub offset: Option<(f32, f32)>,
    pub loop_mode: Option<LoopSpec>,
}

#[derive(Clone, Copy)]
pub enum PathStep {
    Is(PathFields, Cursor),
    Refused(Refusal, usize),
}

// `start..end`
fn offset_range(text: &[u8], c: Cursor) -> PairRead
    requires { Ready text.now c }
    ensures { OffsetMeans text.now c result }
{
    match read_cursor::parse_float(text, c) {
        FloatRead::Refused(r, p) => PairRead::Refused(r, p),
        FloatRead::Is(start, m) => match read_cursor::both(text, m, b'.', b'.') {
            MarkRead::Missing(p) => PairRead::Refused(Refusal::Missing, p),
            MarkRead::Is(n) => match read_cursor::parse_float(text, n) {
                FloatRead::Refused(r, p) => PairRead::Refused(r, p),
                FloatRead::Is(end, e) => PairRead::Is(start, end, e),
            },
        },
    }
}

// The value of the field of a row, onto those before it.
fn path_step(text: &[u8], c: Cursor, row: usize, kept: PathFields) -> PathStep
    requires { Ready text.now c }
    ensures { PathStepMeans text.now c row kept result }
{
    match row {
        0 => match read_cursor::parse_float(text, c) {
            FloatRead::Refused(r, p) => PathStep::Refused(r, p),
            FloatRead::Is(x, m) => {
                let duration = Some(x);
                PathStep::Is(PathFields { duration, ..kept }, m)
            }
        },
        1 => match read_values::parse_easing(text, c) {
            EasingRead::Refused(r, p) => PathStep::Refused(r, p),
            EasingRead::Is(x, m) => {
                let easing = Some(x);
                PathStep::Is(PathFields { easing, ..kept }, m)
            }
        },
        2 => match read_cursor::truth(text, c) {
            TruthRead::Missing(p) => PathStep::Refused(Refusal::Missing, p),
            TruthRead::Is(b, m) => {
                let auto_rotate = Some(b);
                PathStep::Is(
                    PathFields {
                        auto_rotate,
                        ..kept
                    },
                    m,
                )
            }
        },
        3 => match offset_range(text, c) {
            PairRead::Refused(r, p) => PathStep::Refused(r, p),
            PairRead::Is(start, end, m) => {
                let offset = Some((start, end));
                PathStep::Is(PathFields { offset, ..kept }, m)
            }
        },
        _ => match read_values::parse_loop_mode(text, c) {
            LoopRead::Refused(r, p) => PathStep::Refused(r, p),
            LoopRead::Is(x, m) => {
                let loop_mode = Some(x);
                PathStep::Is(PathFields { loop_mode, ..kept }, m)
            }
        },
    }
}

// The fields at c.
fn path_fields(text: &[u8], c: Cursor) -> PathStep
    requires { Ready text.now c }
    ensures { PathListMeans text.now c result }
{
    let mut m = c;
    let mut kept = PathFields {
        duration: None,
        easing: None,
        auto_rotate: None,
        offset: None,
        loop_mode: None,
    };
    loop {
        match read_fields::parse_field_list(text, m, words::List::PathRows) {
            NextField::Refused(r, p) => return PathStep::Refused(r, p),
            NextField::Done(e) => return PathStep::Is(kept, e),
            NextField::Field(i, v) => match path_step(text, v, i, kept) {
                PathStep::Refused(r, p) => return PathStep::Refused(r, p),
                PathStep::Is(g, e) => {
                    kept = g;
                    m = e;
                }
            },
        }
    }
}

// ---- the node

fn put_path(sheet: &mut [u8], out: usize, x: PathSpec) -> usize
    requires { (out < 2 ^ 30) × PlainPath x }
    ensures { Put sheet.old out (path_of x) sheet.new result }
{
    let target = x.target;
    let svg = x.svg;
    let easing = x.easing;
    let auto_rotate = x.auto_rotate;
    let offset = x.offset;
    let loop_mode = x.loop_mode;
    let svg_at = sheet_encode::put_span(sheet, out, target);
    let duration_at = sheet_encode::put_span(sheet, svg_at, svg);
    let easing_at = sheet_encode::put_float(sheet, duration_at, x.duration);
    let auto_rotate_at = sheet_encode::put_opt_easing(sheet, easing_at, easing);
    let offset_at = sheet_encode::put_opt_bool(sheet, auto_rotate_at, auto_rotate);
    let loop_at = sheet_encode::put_opt_range(sheet, offset_at, offset);
    sheet_encode::put_opt_loop(sheet, loop_at, loop_mode)
}

// Behind the string.
fn path_end(
    text: &[u8],
    sheet: &mut [u8],
    c: Cursor,
    out: usize,
    target: Span,
    svg: Span,
) -> NodeRead
    requires { Ready text.now c × Room text.now out }
    ensures { EndMeans text.now sheet.old sheet.new c out (path_end (span_of target) (span_of svg)) result }
{
    match path_fields(text, c) {
        PathStep::Refused(r, p) => NodeRead::Refused(r, p),
        PathStep::Is(f, e) => {
            let written = f.duration;
            let Some(duration) = written else {
                return NodeRead::Refused(Refusal::MissingDuration, read_cursor::place(e));
            };
            let easing = f.easing;
            let auto_rotate = f.auto_rotate;
            let offset = f.offset;
            let loop_mode = f.loop_mode;
            let spec = PathSpec {
                target,
                svg,
                duration,
                easing,
                auto_rotate,
                offset,
                loop_mode,
            };
            NodeRead::Is(put_path(sheet, out, spec), e)
        }
    }
}

pub fn parse_path(text: &[u8], sheet: &mut [u8], c: Cursor, out: usize) -> NodeRead
    requires { Ready text.now c × Room text.now out }
    ensures { LeafMeans text.now sheet.old sheet.new c out parse_path result }
{
    match read_cursor::word(text, c) {
        WordRead::Missing(p) => NodeRead::Refused(Refusal::Missing, p),
        WordRead::Is(target, m) => match read_cursor::choice(
            text,
            m,
            words::List::Along,
            Refusal::Malformed,
        ) {
            CaseRead::Refused(r, p) => NodeRead::Refused(r, p),
            CaseRead::Is(_, n) => match read_cursor::string(text, n) {
                WordRead::Missing(p) => NodeRead::Refused(Refusal::Missing, p),
                WordRead::Is(svg, e) => path_end(text, sheet, e, out, target, svg),
            },
        },
    }
}
