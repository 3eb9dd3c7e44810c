// parser.rs: the node color: its fields, its record, and its reader behind the keyword. For our own
// crates: each function requires a cursor that stands in a text of at most 16,384 bytes, and a place below 2^30.
#![tactic(auto)]

ghost use Rattle.read_cursor.specs.Means.{Ready};
ghost use Rattle.read_color.specs.Means.{ColorStepMeans, ColorListMeans, PlainColor, color_of, color_end, color_strings};
ghost use Rattle.std.specs.Prelude.{◌^◌, ◌<◌};
ghost use Rattle.read_node.specs.Means.{Put, LeafMeans, EndMeans};
ghost use Rattle.sheet_encode.specs.Means.{span_of};
ghost use Rattle.grammar.specs.Grammar.{parse_color};
ghost use Rattle.read_arrays.specs.Means.{Room};

use ast::{ColorSpec, EasingSpec, Span};
use error::Refusal;
use read_cursor::{CaseRead, Cursor, FloatRead, MarkRead, WordRead};
use read_fields::NextField;
use read_node::NodeRead;
use read_values::EasingRead;

// ---- the fields

// What the fields of a color say.
#[derive(Clone, Copy)]
pub struct ColorFields {
    pub duration: Option<f32>,
    pub space: Option<u8>,
    pub easing: Option<EasingSpec>,
}

#[derive(Clone, Copy)]
pub enum ColorStep {
    Is(ColorFields, Cursor),
    Refused(Refusal, usize),
}

// The value of the field of a row, onto those before it.
fn color_step(text: &[u8], c: Cursor, row: usize, kept: ColorFields) -> ColorStep
    requires { Ready text.now c }
    ensures { ColorStepMeans text.now c row kept result }
{
    match row {
        0 => match read_cursor::parse_float(text, c) {
            FloatRead::Refused(r, p) => ColorStep::Refused(r, p),
            FloatRead::Is(x, m) => {
                let duration = Some(x);
                ColorStep::Is(ColorFields { duration, ..kept }, m)
            }
        },
        1 => match read_cursor::choice(text, c, words::List::Spaces, Refusal::Malformed) {
            CaseRead::Refused(r, p) => ColorStep::Refused(r, p),
            CaseRead::Is(i, m) => {
                let space = Some(i as u8);
                ColorStep::Is(ColorFields { space, ..kept }, m)
            }
        },
        _ => match read_values::parse_easing(text, c) {
            EasingRead::Refused(r, p) => ColorStep::Refused(r, p),
            EasingRead::Is(x, m) => {
                let easing = Some(x);
                ColorStep::Is(ColorFields { easing, ..kept }, m)
            }
        },
    }
}

// The fields at c.
fn color_fields(text: &[u8], c: Cursor) -> ColorStep
    requires { Ready text.now c }
    ensures { ColorListMeans text.now c result }
{
    let mut m = c;
    let mut kept = ColorFields {
        duration: None,
        space: None,
        easing: None,
    };
    loop {
        match read_fields::parse_field_list(text, m, words::List::ColorRows) {
            NextField::Refused(r, p) => return ColorStep::Refused(r, p),
            NextField::Done(e) => return ColorStep::Is(kept, e),
            NextField::Field(i, v) => match color_step(text, v, i, kept) {
                ColorStep::Refused(r, p) => return ColorStep::Refused(r, p),
                ColorStep::Is(g, e) => {
                    kept = g;
                    m = e;
                }
            },
        }
    }
}

// ---- the node

fn put_color(sheet: &mut [u8], out: usize, x: ColorSpec) -> usize
    requires { (out < 2 ^ 30) × PlainColor x }
    ensures { Put sheet.old out (color_of x) sheet.new result }
{
    let target = x.target;
    let from = x.from;
    let to = x.to;
    let easing = x.easing;
    let from_at = sheet_encode::put_span(sheet, out, target);
    let to_at = sheet_encode::put_span(sheet, from_at, from);
    let duration_at = sheet_encode::put_span(sheet, to_at, to);
    let space_at = sheet_encode::put_float(sheet, duration_at, x.duration);
    let easing_at = sheet_encode::put_byte(sheet, space_at, x.space);
    sheet_encode::put_opt_easing(sheet, easing_at, easing)
}

// Behind the strings.
fn color_end(
    text: &[u8],
    sheet: &mut [u8],
    c: Cursor,
    out: usize,
    target: Span,
    from: Span,
    to: Span,
) -> NodeRead
    requires { Ready text.now c × Room text.now out }
    ensures { EndMeans text.now sheet.old sheet.new c out (color_end (span_of target) (span_of from) (span_of to)) result }
{
    match color_fields(text, c) {
        ColorStep::Refused(r, p) => NodeRead::Refused(r, p),
        ColorStep::Is(f, e) => {
            let written = f.duration;
            let Some(duration) = written else {
                return NodeRead::Refused(Refusal::MissingDuration, read_cursor::place(e));
            };
            let written_space = f.space;
            let space = read_values::case_or(written_space, 0);
            let easing = f.easing;
            let spec = ColorSpec {
                target,
                from,
                to,
                duration,
                space,
                easing,
            };
            NodeRead::Is(put_color(sheet, out, spec), e)
        }
    }
}

// Behind the `:`.
fn color_strings(text: &[u8], sheet: &mut [u8], c: Cursor, out: usize, target: Span) -> NodeRead
    requires { Ready text.now c × Room text.now out }
    ensures { EndMeans text.now sheet.old sheet.new c out (color_strings (span_of target)) result }
{
    match read_cursor::string(text, c) {
        WordRead::Missing(p) => NodeRead::Refused(Refusal::Missing, p),
        WordRead::Is(from, m) => match read_cursor::both(text, m, b'=', b'>') {
            MarkRead::Missing(p) => NodeRead::Refused(Refusal::Missing, p),
            MarkRead::Is(n) => match read_cursor::string(text, n) {
                WordRead::Missing(p) => NodeRead::Refused(Refusal::Missing, p),
                WordRead::Is(to, e) => color_end(text, sheet, e, out, target, from, to),
            },
        },
    }
}

pub fn parse_color(text: &[u8], sheet: &mut [u8], c: Cursor, out: usize) -> NodeRead
    requires { Ready text.now c × Room text.now out }
    ensures { LeafMeans text.now sheet.old sheet.new c out parse_color result }
{
    match read_cursor::word_before(text, c, b':') {
        WordRead::Missing(p) => NodeRead::Refused(Refusal::Missing, p),
        WordRead::Is(target, m) => match read_cursor::mark(text, m, b':') {
            MarkRead::Missing(p) => NodeRead::Refused(Refusal::Missing, p),
            MarkRead::Is(n) => color_strings(text, sheet, n, out, target),
        },
    }
}
