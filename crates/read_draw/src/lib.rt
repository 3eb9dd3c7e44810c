// parser.rs: the nodes draw and preset, which have the same fields: these, the records, and the readers behind the keywords. For our own
// crates: each function requires a cursor that stands in a text of at most 16,384 bytes, and a place below 2^30.
#![tactic(auto)]

ghost use Rattle.std.specs.Prelude.{◌≡◌, ◌^◌, ◌<◌};
ghost use Rattle.grammar.specs.Fields.{Fields, parse_field_list, pairs};
ghost use Rattle.grammar.specs.Grammar.{draw_fields, parse_draw, parse_preset_call};
ghost use Rattle.read_cursor.specs.WordMeans.{at_of};
ghost use Rattle.read_cursor.specs.Means.{Ready};
ghost use Rattle.read_node.specs.CellMeans.{AllSay};
ghost use Rattle.read_draw.specs.Means.{draw_cells, no_draw_fields, DrawStepMeans, DrawListMeans, PlainDraw, draw_of, PlainPreset, preset_of, draw_end};
ghost use Rattle.read_draw.specs.Means.{preset_pairs, preset_fields, preset_end};
ghost use Rattle.read_node.specs.Means.{Put, LeafMeans, EndMeans};
ghost use Rattle.sheet_encode.specs.Means.{span_of};
ghost use Rattle.read_arrays.specs.Means.{Room};

use ast::{DrawSpec, EasingSpec, PresetCall, Span};
use error::Refusal;
use read_cursor::{Cursor, FloatRead, WordRead};
use read_fields::NextField;
use read_node::NodeRead;
use read_values::EasingRead;

// ---- the fields

// What the fields of a draw say.
#[derive(Clone, Copy)]
pub struct DrawFields {
    pub duration: Option<f32>,
    pub easing: Option<EasingSpec>,
}

#[derive(Clone, Copy)]
pub enum DrawStep {
    Is(DrawFields, Cursor),
    Refused(Refusal, usize),
}

// The value of the field of a row, onto those before it.
fn draw_step(text: &[u8], c: Cursor, row: usize, kept: DrawFields) -> DrawStep
    requires { Ready text.now c }
    ensures { DrawStepMeans text.now c row kept result }
{
    match row {
        0 => match read_cursor::parse_float(text, c) {
            FloatRead::Refused(r, p) => DrawStep::Refused(r, p),
            FloatRead::Is(x, m) => {
                let duration = Some(x);
                DrawStep::Is(DrawFields { duration, ..kept }, m)
            }
        },
        _ => match read_values::parse_easing(text, c) {
            EasingRead::Refused(r, p) => DrawStep::Refused(r, p),
            EasingRead::Is(x, m) => {
                let easing = Some(x);
                DrawStep::Is(DrawFields { easing, ..kept }, m)
            }
        },
    }
}

// Before the first field.
fn no_draw_fields() -> DrawFields
    ensures { result ≡ no_draw_fields }
{
    DrawFields {
        duration: None,
        easing: None,
    }
}

// The fields at c, onto those that were read before.
fn draw_fields(text: &[u8], c: Cursor, earlier: DrawFields) -> DrawStep
    requires { Ready text.now c }
    ensures { (fs : Fields) → AllSay text.now (at_of c) (at_of c) (draw_cells earlier) fs → DrawListMeans text.now c (parse_field_list draw_fields fs) result }
{
    let mut m = c;
    let mut kept = earlier;
    loop {
        match read_fields::parse_field_list(text, m, words::List::DrawRows) {
            NextField::Refused(r, p) => return DrawStep::Refused(r, p),
            NextField::Done(e) => return DrawStep::Is(kept, e),
            NextField::Field(i, v) => match draw_step(text, v, i, kept) {
                DrawStep::Refused(r, p) => return DrawStep::Refused(r, p),
                DrawStep::Is(g, e) => {
                    kept = g;
                    m = e;
                }
            },
        }
    }
}

// Those in parentheses, from behind the `(`.
fn draw_pairs(text: &[u8], c: Cursor) -> DrawStep
    requires { Ready text.now c }
    ensures { DrawListMeans text.now c (pairs draw_fields) result }
{
    let mut m = c;
    let mut kept = no_draw_fields();
    loop {
        match read_fields::next_pair(text, m, words::List::DrawRows) {
            NextField::Refused(r, p) => return DrawStep::Refused(r, p),
            NextField::Done(e) => return DrawStep::Is(kept, e),
            NextField::Field(i, v) => match draw_step(text, v, i, kept) {
                DrawStep::Refused(r, p) => return DrawStep::Refused(r, p),
                DrawStep::Is(g, e) => {
                    let ate = read_cursor::eat(text, e, b',');
                    let next = ate.next;
                    if !ate.taken {
                        return DrawStep::Is(g, next);
                    }
                    kept = g;
                    m = next;
                }
            },
        }
    }
}

// ---- draw

fn put_draw(sheet: &mut [u8], out: usize, x: DrawSpec) -> usize
    requires { (out < 2 ^ 30) × PlainDraw x }
    ensures { Put sheet.old out (draw_of x) sheet.new result }
{
    let easing = x.easing;
    let svg = x.svg;
    let duration_at = sheet_encode::put_span(sheet, out, svg);
    let easing_at = sheet_encode::put_float(sheet, duration_at, x.duration);
    sheet_encode::put_opt_easing(sheet, easing_at, easing)
}

// Behind the string.
fn draw_end(text: &[u8], sheet: &mut [u8], c: Cursor, out: usize, svg: Span) -> NodeRead
    requires { Ready text.now c × Room text.now out }
    ensures { EndMeans text.now sheet.old sheet.new c out (draw_end (span_of svg)) result }
{
    match draw_fields(text, c, no_draw_fields()) {
        DrawStep::Refused(r, p) => NodeRead::Refused(r, p),
        DrawStep::Is(f, e) => {
            let written = f.duration;
            let Some(duration) = written else {
                return NodeRead::Refused(Refusal::MissingDuration, read_cursor::place(e));
            };
            let easing = f.easing;
            let spec = DrawSpec {
                svg,
                duration,
                easing,
            };
            NodeRead::Is(put_draw(sheet, out, spec), e)
        }
    }
}

pub fn parse_draw(text: &[u8], sheet: &mut [u8], c: Cursor, out: usize) -> NodeRead
    requires { Ready text.now c × Room text.now out }
    ensures { LeafMeans text.now sheet.old sheet.new c out parse_draw result }
{
    match read_cursor::string(text, c) {
        WordRead::Missing(p) => NodeRead::Refused(Refusal::Missing, p),
        WordRead::Is(svg, m) => draw_end(text, sheet, m, out, svg),
    }
}

// ---- preset

fn put_preset(sheet: &mut [u8], out: usize, x: PresetCall) -> usize
    requires { (out < 2 ^ 30) × PlainPreset x }
    ensures { Put sheet.old out (preset_of x) sheet.new result }
{
    let name = x.name;
    let duration = x.duration;
    let easing = x.easing;
    let duration_at = sheet_encode::put_span(sheet, out, name);
    let easing_at = sheet_encode::put_opt_float(sheet, duration_at, duration);
    sheet_encode::put_opt_easing(sheet, easing_at, easing)
}

// The fields in parentheses, if there are any.
fn preset_pairs(text: &[u8], c: Cursor) -> DrawStep
    requires { Ready text.now c }
    ensures { DrawListMeans text.now c preset_pairs result }
{
    if !read_cursor::sees(c, b'(') {
        return DrawStep::Is(no_draw_fields(), c);
    }
    match draw_pairs(text, read_cursor::advance(text, c)) {
        DrawStep::Refused(r, p) => DrawStep::Refused(r, p),
        DrawStep::Is(f, e) => DrawStep::Is(f, read_cursor::leave_group(text, e, b')')),
    }
}

// Those, and more of them behind a `,`.
fn preset_fields(text: &[u8], c: Cursor) -> DrawStep
    requires { Ready text.now c }
    ensures { DrawListMeans text.now c preset_fields result }
{
    match preset_pairs(text, c) {
        DrawStep::Refused(r, p) => DrawStep::Refused(r, p),
        DrawStep::Is(f, e) => {
            if !read_cursor::sees(e, b',') {
                return DrawStep::Is(f, e);
            }
            draw_fields(text, read_cursor::advance(text, e), f)
        }
    }
}

// Behind the name.
fn preset_end(text: &[u8], sheet: &mut [u8], c: Cursor, out: usize, name: Span) -> NodeRead
    requires { Ready text.now c × Room text.now out }
    ensures { EndMeans text.now sheet.old sheet.new c out (preset_end (span_of name)) result }
{
    match preset_fields(text, c) {
        DrawStep::Refused(r, p) => NodeRead::Refused(r, p),
        DrawStep::Is(f, e) => {
            let duration = f.duration;
            let easing = f.easing;
            let call = PresetCall {
                name,
                duration,
                easing,
            };
            NodeRead::Is(put_preset(sheet, out, call), e)
        }
    }
}

pub fn parse_preset_call(text: &[u8], sheet: &mut [u8], c: Cursor, out: usize) -> NodeRead
    requires { Ready text.now c × Room text.now out }
    ensures { LeafMeans text.now sheet.old sheet.new c out parse_preset_call result }
{
    match read_cursor::word(text, c) {
        WordRead::Missing(p) => NodeRead::Refused(Refusal::Missing, p),
        WordRead::Is(name, m) => preset_end(text, sheet, m, out, name),
    }
}
