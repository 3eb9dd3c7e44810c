// parser.rs: the node spring: its fields, its record, and its reader behind the keyword. For our own
// crates: each function requires a cursor that stands in a text of at most 16,384 bytes, and a place below 2^30.
#![tactic(auto)]

ghost use Rattle.std.specs.Prelude.{◌≤◌, ℕ, ◌+◌, ◌<◌, ◌^◌, length};
ghost use Rattle.read_cursor.specs.Means.{Ready};
ghost use Rattle.read_spring.specs.Means.{PastMeans, SpringStepMeans, SpringListMeans, Told, VelocityPut, PlainSpring, spring_bytes};
ghost use Rattle.std.proofs.Math.Option.{Option};
ghost use Rattle.text.specs.Limits.{text_limit};
ghost use Rattle.ast.specs.Tree.{ValueExpr};
ghost use Rattle.grammar.specs.Grammar.{parse_spring};
ghost use Rattle.sheet_encode.specs.WriteMeans.{Writes};
ghost use Rattle.read_arrays.specs.Means.{Room, Wide};
ghost use Rattle.read_node.specs.Means.{LeafMeans};
ghost use Rattle.read_node.specs.CellMeans.{PlaceSays};

use ast::DampingMode;
use error::Refusal;
use read_arrays::ValueRead;
use read_cursor::{CaseRead, Cursor, FloatRead};
use read_fields::NextField;
use read_node::NodeRead;
use read_values::PairRead;

// ---- the fields

// What a spring's fields say. The velocity is the cursor before it.
#[derive(Clone, Copy)]
pub struct SpringFields {
    pub preset: Option<u8>,
    pub stiffness: Option<f32>,
    pub damping: Option<f32>,
    pub mass: Option<f32>,
    pub velocity: Option<Cursor>,
    pub epsilon: Option<f32>,
    pub integrator: Option<u8>,
    pub damping_mode: Option<DampingMode>,
}

#[derive(Clone, Copy)]
pub enum SpringStep {
    Is(SpringFields, Cursor),
    Refused(Refusal, usize),
}

#[derive(Clone, Copy)]
pub enum PastRead {
    Is(Cursor),
    Refused(Refusal, usize),
}

// A number or an array is passed: it is read again from its cursor when it is written.
fn past_value(text: &[u8], c: Cursor) -> PastRead
    requires { Ready text.now c }
    ensures { PastMeans text.now c result }
{
    let mut unwritten = [0u8; 1];
    match read_arrays::parse_value(text, &mut unwritten, c, 0) {
        read_arrays::ValueRead::Refused(r, p) => PastRead::Refused(r, p),
        read_arrays::ValueRead::Is(_, m) => PastRead::Is(m),
    }
}

// A damping mode, the value of the last three rows, onto the fields before it.
fn damping_step(text: &[u8], c: Cursor, row: usize, kept: SpringFields) -> SpringStep
    requires { Ready text.now c × (7 ≤ row) }
    ensures { SpringStepMeans text.now c row kept result }
{
    match row {
        7 => match read_values::parse_float_in_parens(text, c) {
            FloatRead::Refused(r, p) => SpringStep::Refused(r, p),
            FloatRead::Is(x, m) => {
                let mode = DampingMode::CriticallyDamped(x);
                let damping_mode = Some(mode);
                SpringStep::Is(
                    SpringFields {
                        damping_mode,
                        ..kept
                    },
                    m,
                )
            }
        },
        8 => match read_values::parse_two_floats_in_parens(text, c) {
            PairRead::Refused(r, p) => SpringStep::Refused(r, p),
            PairRead::Is(x, y, m) => {
                let mode = DampingMode::Overdamped(x, y);
                let damping_mode = Some(mode);
                SpringStep::Is(
                    SpringFields {
                        damping_mode,
                        ..kept
                    },
                    m,
                )
            }
        },
        _ => match read_values::parse_two_floats_in_parens(text, c) {
            PairRead::Refused(r, p) => SpringStep::Refused(r, p),
            PairRead::Is(x, y, m) => {
                let mode = DampingMode::Underdamped(x, y);
                let damping_mode = Some(mode);
                SpringStep::Is(
                    SpringFields {
                        damping_mode,
                        ..kept
                    },
                    m,
                )
            }
        },
    }
}

// The value of the field of a row, onto those before it.
fn spring_step(text: &[u8], c: Cursor, row: usize, kept: SpringFields) -> SpringStep
    requires { Ready text.now c }
    ensures { SpringStepMeans text.now c row kept result }
{
    match row {
        0 => match read_cursor::choice(
            text,
            c,
            words::List::SpringPresets,
            Refusal::UnknownSpringPreset,
        ) {
            CaseRead::Refused(r, p) => SpringStep::Refused(r, p),
            CaseRead::Is(i, m) => {
                let preset = Some(i as u8);
                SpringStep::Is(SpringFields { preset, ..kept }, m)
            }
        },
        1 => match read_cursor::parse_float(text, c) {
            FloatRead::Refused(r, p) => SpringStep::Refused(r, p),
            FloatRead::Is(x, m) => {
                let stiffness = Some(x);
                SpringStep::Is(SpringFields { stiffness, ..kept }, m)
            }
        },
        2 => match read_cursor::parse_float(text, c) {
            FloatRead::Refused(r, p) => SpringStep::Refused(r, p),
            FloatRead::Is(x, m) => {
                let damping = Some(x);
                SpringStep::Is(SpringFields { damping, ..kept }, m)
            }
        },
        3 => match read_cursor::parse_float(text, c) {
            FloatRead::Refused(r, p) => SpringStep::Refused(r, p),
            FloatRead::Is(x, m) => {
                let mass = Some(x);
                SpringStep::Is(SpringFields { mass, ..kept }, m)
            }
        },
        4 => match past_value(text, c) {
            PastRead::Refused(r, p) => SpringStep::Refused(r, p),
            PastRead::Is(m) => {
                let velocity = Some(c);
                SpringStep::Is(SpringFields { velocity, ..kept }, m)
            }
        },
        5 => match read_cursor::parse_float(text, c) {
            FloatRead::Refused(r, p) => SpringStep::Refused(r, p),
            FloatRead::Is(x, m) => {
                let epsilon = Some(x);
                SpringStep::Is(SpringFields { epsilon, ..kept }, m)
            }
        },
        6 => match read_cursor::choice(text, c, words::List::Integrators, Refusal::Malformed) {
            CaseRead::Refused(r, p) => SpringStep::Refused(r, p),
            CaseRead::Is(i, m) => {
                let integrator = Some(i as u8);
                SpringStep::Is(SpringFields { integrator, ..kept }, m)
            }
        },
        _ => damping_step(text, c, row, kept),
    }
}

// The fields at c.
fn spring_fields(text: &[u8], c: Cursor) -> SpringStep
    requires { Ready text.now c }
    ensures { SpringListMeans text.now c result }
{
    let mut m = c;
    let mut kept = SpringFields {
        preset: None,
        stiffness: None,
        damping: None,
        mass: None,
        velocity: None,
        epsilon: None,
        integrator: None,
        damping_mode: None,
    };
    loop {
        match read_fields::parse_field_list(text, m, words::List::SpringRows) {
            NextField::Refused(r, p) => return SpringStep::Refused(r, p),
            NextField::Done(e) => return SpringStep::Is(kept, e),
            NextField::Field(i, v) => match spring_step(text, v, i, kept) {
                SpringStep::Refused(r, p) => return SpringStep::Refused(r, p),
                SpringStep::Is(g, e) => {
                    kept = g;
                    m = e;
                }
            },
        }
    }
}

// ---- the node

// Writes the velocity, read again from its cursor. A value stands there, so it is not refused.
fn put_velocity(text: &[u8], sheet: &mut [u8], at: usize, velocity: Option<Cursor>) -> usize
    requires { Wide text.now (at + 64) × Told text.now velocity }
    ensures { (lo hi : ℕ) (v : Option ValueExpr) → PlaceSays text.now lo hi velocity v → VelocityPut sheet.old sheet.new at v result }
{
    match velocity {
        None => sheet_encode::put_byte(sheet, at, 0),
        Some(c) => {
            let value_at = sheet_encode::put_byte(sheet, at, 1);
            match read_arrays::parse_value(text, sheet, c, value_at) {
                ValueRead::Refused(_, _) => value_at,
                ValueRead::Is(end, _) => end,
            }
        }
    }
}

// Writes a spring's fields behind its values.
fn put_spring_fields(text: &[u8], sheet: &mut [u8], at: usize, x: SpringFields) -> usize
    requires { (length text.now ≤ text_limit) × (at < 2 ^ 30 + 2 ^ 20) × PlainSpring x × Told text.now x.velocity }
    ensures { (lo hi : ℕ) (v : Option ValueExpr) → PlaceSays text.now lo hi x.velocity v → Writes sheet.old at (spring_bytes x v) sheet.new result }
{
    let preset = x.preset;
    let stiffness = x.stiffness;
    let damping = x.damping;
    let mass = x.mass;
    let velocity = x.velocity;
    let epsilon = x.epsilon;
    let integrator = x.integrator;
    let damping_mode = x.damping_mode;
    let stiffness_at = sheet_encode::put_opt_case(sheet, at, preset);
    let damping_at = sheet_encode::put_opt_float(sheet, stiffness_at, stiffness);
    let mass_at = sheet_encode::put_opt_float(sheet, damping_at, damping);
    let velocity_at = sheet_encode::put_opt_float(sheet, mass_at, mass);
    let epsilon_at = put_velocity(text, sheet, velocity_at, velocity);
    let integrator_at = sheet_encode::put_opt_float(sheet, epsilon_at, epsilon);
    let mode_at = sheet_encode::put_opt_case(sheet, integrator_at, integrator);
    sheet_encode::put_opt_damping(sheet, mode_at, damping_mode)
}

pub fn parse_spring(text: &[u8], sheet: &mut [u8], c: Cursor, out: usize) -> NodeRead
    requires { Ready text.now c × Room text.now out }
    ensures { LeafMeans text.now sheet.old sheet.new c out parse_spring result }
{
    match read_node::parse_ends(text, sheet, c, out) {
        ValueRead::Refused(r, p) => NodeRead::Refused(r, p),
        ValueRead::Is(at, m) => match spring_fields(text, m) {
            SpringStep::Refused(r, p) => NodeRead::Refused(r, p),
            SpringStep::Is(fields, e) => {
                NodeRead::Is(put_spring_fields(text, sheet, at, fields), e)
            }
        },
    }
}
