// parser.rs: the node waveform: its fields, its record, and its reader behind the keyword. For our own
// crates: each function requires a cursor that stands in a text of at most 16,384 bytes, and a place below 2^30.
#![tactic(auto)]

ghost use Rattle.read_cursor.specs.Means.{Ready};
ghost use Rattle.read_waveform.specs.Means.{WaveformStepMeans, WaveformListMeans, PlainWaveform, waveform_of, waveform_end};
ghost use Rattle.std.specs.Prelude.{◌^◌, ◌<◌};
ghost use Rattle.read_node.specs.Means.{Put, LeafMeans, EndMeans};
ghost use Rattle.grammar.specs.Grammar.{parse_waveform};
ghost use Rattle.read_arrays.specs.Means.{Room};

use ast::{WaveformKind, WaveformSpec};
use error::Refusal;
use read_cursor::{CaseRead, Cursor, FloatRead, UintRead};
use read_fields::NextField;
use read_node::NodeRead;

// ---- the fields

// What the fields of a waveform say.
#[derive(Clone, Copy)]
pub struct WaveformFields {
    pub frequency: Option<f32>,
    pub amplitude: Option<f32>,
    pub phase: Option<f32>,
    pub duty_cycle: Option<f32>,
    pub seed: Option<u32>,
    pub smoothness: Option<f32>,
    pub duration: Option<f32>,
}

#[derive(Clone, Copy)]
pub enum WaveformStep {
    Is(WaveformFields, Cursor),
    Refused(Refusal, usize),
}

// The value of the field of a row, onto those before it.
fn waveform_step(text: &[u8], c: Cursor, row: usize, kept: WaveformFields) -> WaveformStep
    requires { Ready text.now c }
    ensures { WaveformStepMeans text.now c row kept result }
{
    match row {
        0 => match read_cursor::parse_float(text, c) {
            FloatRead::Refused(r, p) => WaveformStep::Refused(r, p),
            FloatRead::Is(x, m) => {
                let frequency = Some(x);
                WaveformStep::Is(WaveformFields { frequency, ..kept }, m)
            }
        },
        1 => match read_cursor::parse_float(text, c) {
            FloatRead::Refused(r, p) => WaveformStep::Refused(r, p),
            FloatRead::Is(x, m) => {
                let amplitude = Some(x);
                WaveformStep::Is(WaveformFields { amplitude, ..kept }, m)
            }
        },
        2 => match read_cursor::parse_float(text, c) {
            FloatRead::Refused(r, p) => WaveformStep::Refused(r, p),
            FloatRead::Is(x, m) => {
                let phase = Some(x);
                WaveformStep::Is(WaveformFields { phase, ..kept }, m)
            }
        },
        3 => match read_cursor::parse_float(text, c) {
            FloatRead::Refused(r, p) => WaveformStep::Refused(r, p),
            FloatRead::Is(x, m) => {
                let duty_cycle = Some(x);
                WaveformStep::Is(WaveformFields { duty_cycle, ..kept }, m)
            }
        },
        4 => match read_cursor::parse_uint(text, c) {
            UintRead::Refused(r, p) => WaveformStep::Refused(r, p),
            UintRead::Is(n, m) => {
                let seed = Some(n);
                WaveformStep::Is(WaveformFields { seed, ..kept }, m)
            }
        },
        5 => match read_cursor::parse_float(text, c) {
            FloatRead::Refused(r, p) => WaveformStep::Refused(r, p),
            FloatRead::Is(x, m) => {
                let smoothness = Some(x);
                WaveformStep::Is(WaveformFields { smoothness, ..kept }, m)
            }
        },
        _ => match read_cursor::parse_float(text, c) {
            FloatRead::Refused(r, p) => WaveformStep::Refused(r, p),
            FloatRead::Is(x, m) => {
                let duration = Some(x);
                WaveformStep::Is(WaveformFields { duration, ..kept }, m)
            }
        },
    }
}

// The fields at c.
fn waveform_fields(text: &[u8], c: Cursor) -> WaveformStep
    requires { Ready text.now c }
    ensures { WaveformListMeans text.now c result }
{
    let mut m = c;
    let mut kept = WaveformFields {
        frequency: None,
        amplitude: None,
        phase: None,
        duty_cycle: None,
        seed: None,
        smoothness: None,
        duration: None,
    };
    loop {
        match read_fields::parse_field_list(text, m, words::List::WaveformRows) {
            NextField::Refused(r, p) => return WaveformStep::Refused(r, p),
            NextField::Done(e) => return WaveformStep::Is(kept, e),
            NextField::Field(i, v) => match waveform_step(text, v, i, kept) {
                WaveformStep::Refused(r, p) => return WaveformStep::Refused(r, p),
                WaveformStep::Is(g, e) => {
                    kept = g;
                    m = e;
                }
            },
        }
    }
}

// ---- the node

fn put_waveform(sheet: &mut [u8], out: usize, x: WaveformSpec) -> usize
    requires { (out < 2 ^ 30) × PlainWaveform x }
    ensures { Put sheet.old out (waveform_of x) sheet.new result }
{
    let frequency = x.frequency;
    let amplitude = x.amplitude;
    let phase = x.phase;
    let duty_cycle = x.duty_cycle;
    let seed = x.seed;
    let smoothness = x.smoothness;
    let duration = x.duration;
    let frequency_at = sheet_encode::put_byte(sheet, out, x.kind);
    let amplitude_at = sheet_encode::put_opt_float(sheet, frequency_at, frequency);
    let phase_at = sheet_encode::put_opt_float(sheet, amplitude_at, amplitude);
    let duty_cycle_at = sheet_encode::put_opt_float(sheet, phase_at, phase);
    let seed_at = sheet_encode::put_opt_float(sheet, duty_cycle_at, duty_cycle);
    let smoothness_at = sheet_encode::put_opt_word(sheet, seed_at, seed);
    let duration_at = sheet_encode::put_opt_float(sheet, smoothness_at, smoothness);
    sheet_encode::put_opt_float(sheet, duration_at, duration)
}

// Behind the waveform's kind.
fn waveform_end(
    text: &[u8],
    sheet: &mut [u8],
    c: Cursor,
    out: usize,
    kind: WaveformKind,
) -> NodeRead
    requires { Ready text.now c × Room text.now out }
    ensures { EndMeans text.now sheet.old sheet.new c out (waveform_end kind) result }
{
    match waveform_fields(text, c) {
        WaveformStep::Refused(r, p) => NodeRead::Refused(r, p),
        WaveformStep::Is(f, e) => {
            let frequency = f.frequency;
            let amplitude = f.amplitude;
            let phase = f.phase;
            let duty_cycle = f.duty_cycle;
            let seed = f.seed;
            let smoothness = f.smoothness;
            let duration = f.duration;
            let spec = WaveformSpec {
                kind,
                frequency,
                amplitude,
                phase,
                duty_cycle,
                seed,
                smoothness,
                duration,
            };
            NodeRead::Is(put_waveform(sheet, out, spec), e)
        }
    }
}

// The last of them, which reading refuses: 02 (h).
const NOISE: usize = 4;

pub fn parse_waveform(text: &[u8], sheet: &mut [u8], c: Cursor, out: usize) -> NodeRead
    requires { Ready text.now c × Room text.now out }
    ensures { LeafMeans text.now sheet.old sheet.new c out parse_waveform result }
{
    match read_cursor::choice(text, c, words::List::Waveforms, Refusal::Malformed) {
        CaseRead::Refused(r, p) => NodeRead::Refused(r, p),
        CaseRead::Is(i, m) => {
            if i == NOISE {
                return NodeRead::Refused(Refusal::NoiseWritten, read_cursor::place(m));
            }
            waveform_end(text, sheet, m, out, i as u8)
        }
    }
}
