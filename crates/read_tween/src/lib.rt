// parser.rs: the node tween: its fields, its record, and its reader behind the keyword. For our own
// crates: each function requires a cursor that stands in a text of at most 16,384 bytes, and a place below 2^30.
#![tactic(auto)]

ghost use Rattle.std.specs.Prelude.{◌||◌, ◌≡◌, ℕ, ◌+◌, ◌<◌, ◌^◌};
ghost use Rattle.read_cursor.specs.Means.{Ready};
ghost use Rattle.read_tween.specs.Means.{TweenStepMeans, TweenListMeans, PlainTween, tween_bytes};
ghost use Rattle.grammar.specs.Grammar.{parse_tween};
ghost use Rattle.sheet_encode.specs.WriteMeans.{Writes};
ghost use Rattle.read_arrays.specs.Means.{Room};
ghost use Rattle.read_node.specs.Means.{LeafMeans};

use ast::{EasingSpec, LoopSpec};
use error::Refusal;
use read_arrays::ValueRead;
use read_cursor::{Cursor, FloatRead, TruthRead, UintRead};
use read_fields::NextField;
use read_node::NodeRead;
use read_values::{EasingRead, LoopRead};

// ---- the fields

// What a tween's fields say.
#[derive(Clone, Copy)]
pub struct TweenFields {
    pub duration: Option<f32>,
    pub easing: Option<EasingSpec>,
    pub delay: Option<f32>,
    pub time_scale: Option<f32>,
    pub loop_mode: Option<LoopSpec>,
    pub snap: Option<f32>,
    pub round: Option<u32>,
    pub reverse: bool,
}

#[derive(Clone, Copy)]
pub enum TweenStep {
    Is(TweenFields, Cursor),
    Refused(Refusal, usize),
}

fn either(a: bool, b: bool) -> bool
    ensures { result ≡ (a || b) }
{
    if a {
        return true;
    }
    b
}

// The value of the field of a row, onto those before it.
fn tween_step(text: &[u8], c: Cursor, row: usize, kept: TweenFields) -> TweenStep
    requires { Ready text.now c }
    ensures { TweenStepMeans text.now c row kept result }
{
    match row {
        0 => match read_cursor::parse_float(text, c) {
            FloatRead::Refused(r, p) => TweenStep::Refused(r, p),
            FloatRead::Is(x, m) => {
                let duration = Some(x);
                TweenStep::Is(TweenFields { duration, ..kept }, m)
            }
        },
        1 => match read_values::parse_easing(text, c) {
            EasingRead::Refused(r, p) => TweenStep::Refused(r, p),
            EasingRead::Is(x, m) => {
                let easing = Some(x);
                TweenStep::Is(TweenFields { easing, ..kept }, m)
            }
        },
        2 => match read_cursor::parse_float(text, c) {
            FloatRead::Refused(r, p) => TweenStep::Refused(r, p),
            FloatRead::Is(x, m) => {
                let delay = Some(x);
                TweenStep::Is(TweenFields { delay, ..kept }, m)
            }
        },
        3 => match read_cursor::parse_float(text, c) {
            FloatRead::Refused(r, p) => TweenStep::Refused(r, p),
            FloatRead::Is(x, m) => {
                let time_scale = Some(x);
                TweenStep::Is(TweenFields { time_scale, ..kept }, m)
            }
        },
        4 => match read_values::parse_loop_mode(text, c) {
            LoopRead::Refused(r, p) => TweenStep::Refused(r, p),
            LoopRead::Is(x, m) => {
                let loop_mode = Some(x);
                TweenStep::Is(TweenFields { loop_mode, ..kept }, m)
            }
        },
        5 => match read_cursor::parse_float(text, c) {
            FloatRead::Refused(r, p) => TweenStep::Refused(r, p),
            FloatRead::Is(x, m) => {
                let snap = Some(x);
                TweenStep::Is(TweenFields { snap, ..kept }, m)
            }
        },
        6 => match read_cursor::parse_uint(text, c) {
            UintRead::Refused(r, p) => TweenStep::Refused(r, p),
            UintRead::Is(n, m) => {
                let round = Some(n);
                TweenStep::Is(TweenFields { round, ..kept }, m)
            }
        },
        _ => match read_cursor::truth(text, c) {
            TruthRead::Missing(p) => TweenStep::Refused(Refusal::Missing, p),
            TruthRead::Is(b, m) => {
                let reverse = either(b, kept.reverse);
                TweenStep::Is(TweenFields { reverse, ..kept }, m)
            }
        },
    }
}

// The fields at c.
fn tween_fields(text: &[u8], c: Cursor) -> TweenStep
    requires { Ready text.now c }
    ensures { TweenListMeans text.now c result }
{
    let mut m = c;
    let mut kept = TweenFields {
        duration: None,
        easing: None,
        delay: None,
        time_scale: None,
        loop_mode: None,
        snap: None,
        round: None,
        reverse: false,
    };
    loop {
        match read_fields::parse_field_list(text, m, words::List::TweenRows) {
            NextField::Refused(r, p) => return TweenStep::Refused(r, p),
            NextField::Done(e) => return TweenStep::Is(kept, e),
            NextField::Field(i, v) => match tween_step(text, v, i, kept) {
                TweenStep::Refused(r, p) => return TweenStep::Refused(r, p),
                TweenStep::Is(g, e) => {
                    kept = g;
                    m = e;
                }
            },
        }
    }
}

// ---- the node

// Writes a tween's fields behind its values.
fn put_tween_fields(sheet: &mut [u8], at: usize, duration: f32, x: TweenFields) -> usize
    requires { (at + 64 < 2 ^ 31) × PlainTween duration x }
    ensures { (n : ℕ) → Writes sheet.old at (tween_bytes n duration x) sheet.new result }
{
    let easing = x.easing;
    let delay = x.delay;
    let time_scale = x.time_scale;
    let loop_mode = x.loop_mode;
    let snap = x.snap;
    let round = x.round;
    let easing_at = sheet_encode::put_float(sheet, at, duration);
    let delay_at = sheet_encode::put_opt_easing(sheet, easing_at, easing);
    let scale_at = sheet_encode::put_opt_float(sheet, delay_at, delay);
    let loop_at = sheet_encode::put_opt_float(sheet, scale_at, time_scale);
    let snap_at = sheet_encode::put_opt_loop(sheet, loop_at, loop_mode);
    let round_at = sheet_encode::put_opt_float(sheet, snap_at, snap);
    let reverse_at = sheet_encode::put_opt_word(sheet, round_at, round);
    sheet_encode::put_flag(sheet, reverse_at, x.reverse)
}

pub fn parse_tween(text: &[u8], sheet: &mut [u8], c: Cursor, out: usize) -> NodeRead
    requires { Ready text.now c × Room text.now out }
    ensures { LeafMeans text.now sheet.old sheet.new c out parse_tween result }
{
    match read_node::parse_ends(text, sheet, c, out) {
        ValueRead::Refused(r, p) => NodeRead::Refused(r, p),
        ValueRead::Is(at, m) => match tween_fields(text, m) {
            TweenStep::Refused(r, p) => NodeRead::Refused(r, p),
            TweenStep::Is(fields, e) => {
                let written = fields.duration;
                let Some(duration) = written else {
                    return NodeRead::Refused(Refusal::MissingDuration, read_cursor::place(e));
                };
                NodeRead::Is(put_tween_fields(sheet, at, duration, fields), e)
            }
        },
    }
}
