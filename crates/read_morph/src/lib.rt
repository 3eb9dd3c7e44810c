// parser.rs: the node morph: its fields, its record, and its reader behind the keyword. For our own
// crates: each function requires a cursor that stands in a text of at most 16,384 bytes, and a place below 2^30.
#![tactic(auto)]

ghost use Rattle.read_cursor.specs.Means.{Ready};
ghost use Rattle.read_morph.specs.Means.{MorphStepMeans, MorphListMeans, PlainMorph, morph_of, morph_end};
ghost use Rattle.std.specs.Prelude.{◌^◌, ◌<◌};
ghost use Rattle.read_node.specs.Means.{Put, LeafMeans, EndMeans};
ghost use Rattle.sheet_encode.specs.Means.{span_of};
ghost use Rattle.grammar.specs.Grammar.{parse_morph};
ghost use Rattle.read_arrays.specs.Means.{Room};

use ast::{EasingSpec, MorphSpec, Span};
use error::Refusal;
use read_cursor::{Cursor, FloatRead, MarkRead, UintRead, WordRead};
use read_fields::NextField;
use read_node::NodeRead;
use read_values::EasingRead;

// ---- the fields

// What the fields of a morph say.
#[derive(Clone, Copy)]
pub struct MorphFields {
    pub samples: Option<u32>,
    pub duration: Option<f32>,
    pub easing: Option<EasingSpec>,
}

#[derive(Clone, Copy)]
pub enum MorphStep {
    Is(MorphFields, Cursor),
    Refused(Refusal, usize),
}

// The value of the field of a row, onto those before it.
fn morph_step(text: &[u8], c: Cursor, row: usize, kept: MorphFields) -> MorphStep
    requires { Ready text.now c }
    ensures { MorphStepMeans text.now c row kept result }
{
    match row {
        0 => match read_cursor::parse_uint(text, c) {
            UintRead::Refused(r, p) => MorphStep::Refused(r, p),
            UintRead::Is(n, m) => {
                let samples = Some(n);
                MorphStep::Is(MorphFields { samples, ..kept }, m)
            }
        },
        1 => match read_cursor::parse_float(text, c) {
            FloatRead::Refused(r, p) => MorphStep::Refused(r, p),
            FloatRead::Is(x, m) => {
                let duration = Some(x);
                MorphStep::Is(MorphFields { duration, ..kept }, m)
            }
        },
        _ => match read_values::parse_easing(text, c) {
            EasingRead::Refused(r, p) => MorphStep::Refused(r, p),
            EasingRead::Is(x, m) => {
                let easing = Some(x);
                MorphStep::Is(MorphFields { easing, ..kept }, m)
            }
        },
    }
}

// The fields at c.
fn morph_fields(text: &[u8], c: Cursor) -> MorphStep
    requires { Ready text.now c }
    ensures { MorphListMeans text.now c result }
{
    let mut m = c;
    let mut kept = MorphFields {
        samples: None,
        duration: None,
        easing: None,
    };
    loop {
        match read_fields::parse_field_list(text, m, words::List::MorphRows) {
            NextField::Refused(r, p) => return MorphStep::Refused(r, p),
            NextField::Done(e) => return MorphStep::Is(kept, e),
            NextField::Field(i, v) => match morph_step(text, v, i, kept) {
                MorphStep::Refused(r, p) => return MorphStep::Refused(r, p),
                MorphStep::Is(g, e) => {
                    kept = g;
                    m = e;
                }
            },
        }
    }
}

// ---- the node

fn put_morph(sheet: &mut [u8], out: usize, x: MorphSpec) -> usize
    requires { (out < 2 ^ 30) × PlainMorph x }
    ensures { Put sheet.old out (morph_of x) sheet.new result }
{
    let from = x.from;
    let to = x.to;
    let easing = x.easing;
    let to_at = sheet_encode::put_span(sheet, out, from);
    let samples_at = sheet_encode::put_span(sheet, to_at, to);
    let duration_at = sheet_encode::put_word(sheet, samples_at, x.samples);
    let easing_at = sheet_encode::put_float(sheet, duration_at, x.duration);
    sheet_encode::put_opt_easing(sheet, easing_at, easing)
}

// Behind the strings.
fn morph_end(text: &[u8], sheet: &mut [u8], c: Cursor, out: usize, from: Span, to: Span) -> NodeRead
    requires { Ready text.now c × Room text.now out }
    ensures { EndMeans text.now sheet.old sheet.new c out (morph_end (span_of from) (span_of to)) result }
{
    match morph_fields(text, c) {
        MorphStep::Refused(r, p) => NodeRead::Refused(r, p),
        MorphStep::Is(f, e) => {
            let written = f.duration;
            let Some(duration) = written else {
                return NodeRead::Refused(Refusal::MissingDuration, read_cursor::place(e));
            };
            let written_samples = f.samples;
            let samples = read_values::word_or(written_samples, 32);
            let easing = f.easing;
            let spec = MorphSpec {
                from,
                to,
                samples,
                duration,
                easing,
            };
            NodeRead::Is(put_morph(sheet, out, spec), e)
        }
    }
}

pub fn parse_morph(text: &[u8], sheet: &mut [u8], c: Cursor, out: usize) -> NodeRead
    requires { Ready text.now c × Room text.now out }
    ensures { LeafMeans text.now sheet.old sheet.new c out parse_morph result }
{
    match read_cursor::string(text, c) {
        WordRead::Missing(p) => NodeRead::Refused(Refusal::Missing, p),
        WordRead::Is(from, m) => match read_cursor::both(text, m, b'=', b'>') {
            MarkRead::Missing(p) => NodeRead::Refused(Refusal::Missing, p),
            MarkRead::Is(n) => match read_cursor::string(text, n) {
                WordRead::Missing(p) => NodeRead::Refused(Refusal::Missing, p),
                WordRead::Is(to, e) => morph_end(text, sheet, e, out, from, to),
            },
        },
    }
}
