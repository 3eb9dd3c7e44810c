// parser.rs, "Value / Easing / Loop primitives" and the numbers in parentheses.
// The functions are for our own crates: each requires a cursor that stands in the text.
#![tactic(auto)]

ghost use Rattle.std.specs.Prelude.{◌≡◌, ◌+◌, ◌≤◌, length};
ghost use Rattle.grammar.specs.Values.{parse_float_in_parens, parse_uint_in_parens, comma_float, two_floats, parse_two_floats_in_parens, comma_floats, four_floats, bezier_curve, rough_fields, slow_mo_fields, rough_curve, slow_mo_curve, steps_curve, wiggle_curve, named_easing, curve_or, parse_easing, times_mode, ping_pong_mode, parse_loop_mode};
ghost use Rattle.read_fields.specs.Means as fields;
ghost use Rattle.read_cursor.specs.Means.{Ready, FloatMeans, UintMeans, spelled};
ghost use Rattle.text.specs.Words.{default};
ghost use Rattle.sheet_encode.specs.Means.{opt_word_of, opt_case_of};
ghost use Rattle.read_values.specs.Means.{PairMeans, EasingMeans, CurveMeans, NamedMeans, LoopMeans, ModeMeans, ModeAtMeans, RoughFieldMeans, RoughMeans, SlowMoFieldMeans, SlowMoMeans, FloatOr};

use ast::{EasingSpec, LoopSpec, Span};
use error::Refusal;
use read_cursor::{Cursor, FloatRead, MarkRead, UintRead, WordRead};
use read_fields::NextField;

#[derive(Clone, Copy)]
pub enum PairRead {
    Is(f32, f32, Cursor),
    Refused(Refusal, usize),
}

#[derive(Clone, Copy)]
pub enum EasingRead {
    Is(EasingSpec, Cursor),
    Refused(Refusal, usize),
}

#[derive(Clone, Copy)]
pub enum LoopRead {
    Is(LoopSpec, Cursor),
    Refused(Refusal, usize),
}

// ---- numbers in parentheses

pub fn parse_float_in_parens(text: &[u8], c: Cursor) -> FloatRead
    requires { Ready text.now c }
    ensures { FloatMeans text.now c parse_float_in_parens result }
{
    match read_cursor::mark(text, c, b'(') {
        MarkRead::Missing(p) => FloatRead::Refused(Refusal::Missing, p),
        MarkRead::Is(m) => match read_cursor::parse_float(text, m) {
            FloatRead::Refused(r, p) => FloatRead::Refused(r, p),
            FloatRead::Is(x, n) => FloatRead::Is(x, read_cursor::leave_group(text, n, b')')),
        },
    }
}

fn uint_in_parens(text: &[u8], c: Cursor) -> UintRead
    requires { Ready text.now c }
    ensures { UintMeans text.now c parse_uint_in_parens result }
{
    match read_cursor::mark(text, c, b'(') {
        MarkRead::Missing(p) => UintRead::Refused(Refusal::Missing, p),
        MarkRead::Is(m) => match read_cursor::parse_uint(text, m) {
            UintRead::Refused(r, p) => UintRead::Refused(r, p),
            UintRead::Is(v, n) => UintRead::Is(v, read_cursor::leave_group(text, n, b')')),
        },
    }
}

// Behind a number: `,` and another.
fn comma_float(text: &[u8], c: Cursor) -> FloatRead
    requires { Ready text.now c }
    ensures { FloatMeans text.now c comma_float result }
{
    match read_cursor::mark(text, c, b',') {
        MarkRead::Missing(p) => FloatRead::Refused(Refusal::Missing, p),
        MarkRead::Is(m) => read_cursor::parse_float(text, m),
    }
}

fn two_floats(text: &[u8], c: Cursor) -> PairRead
    requires { Ready text.now c }
    ensures { PairMeans text.now c two_floats result }
{
    match read_cursor::parse_float(text, c) {
        FloatRead::Refused(r, p) => PairRead::Refused(r, p),
        FloatRead::Is(a, m) => match comma_float(text, m) {
            FloatRead::Refused(r, p) => PairRead::Refused(r, p),
            FloatRead::Is(b, n) => PairRead::Is(a, b, n),
        },
    }
}

pub fn parse_two_floats_in_parens(text: &[u8], c: Cursor) -> PairRead
    requires { Ready text.now c }
    ensures { PairMeans text.now c parse_two_floats_in_parens result }
{
    match read_cursor::mark(text, c, b'(') {
        MarkRead::Missing(p) => PairRead::Refused(Refusal::Missing, p),
        MarkRead::Is(m) => match two_floats(text, m) {
            PairRead::Refused(r, p) => PairRead::Refused(r, p),
            PairRead::Is(a, b, n) => PairRead::Is(a, b, read_cursor::leave_group(text, n, b')')),
        },
    }
}

// ---- easing

// Behind two numbers: `,` and two more.
fn comma_floats(text: &[u8], c: Cursor) -> PairRead
    requires { Ready text.now c }
    ensures { PairMeans text.now c comma_floats result }
{
    match read_cursor::mark(text, c, b',') {
        MarkRead::Missing(p) => PairRead::Refused(Refusal::Missing, p),
        MarkRead::Is(m) => two_floats(text, m),
    }
}

// The four control numbers.
fn four_floats(text: &[u8], c: Cursor) -> EasingRead
    requires { Ready text.now c }
    ensures { EasingMeans text.now c four_floats result }
{
    match two_floats(text, c) {
        PairRead::Refused(r, p) => EasingRead::Refused(r, p),
        PairRead::Is(x1, y1, m) => match comma_floats(text, m) {
            PairRead::Refused(r, p) => EasingRead::Refused(r, p),
            PairRead::Is(x2, y2, n) => EasingRead::Is(EasingSpec::CubicBezier(x1, y1, x2, y2), n),
        },
    }
}

// `(x1, y1, x2, y2)`, behind `cubic_bezier`.
fn bezier_curve(text: &[u8], c: Cursor) -> EasingRead
    requires { Ready text.now c }
    ensures { EasingMeans text.now c bezier_curve result }
{
    match read_cursor::mark(text, c, b'(') {
        MarkRead::Missing(p) => EasingRead::Refused(Refusal::Missing, p),
        MarkRead::Is(m) => match four_floats(text, m) {
            EasingRead::Refused(r, p) => EasingRead::Refused(r, p),
            EasingRead::Is(e, n) => EasingRead::Is(e, read_cursor::leave_group(text, n, b')')),
        },
    }
}

// ---- rough

// The fields so far.
#[derive(Clone, Copy)]
pub struct RoughFields {
    pub strength: Option<f32>,
    pub points: Option<u32>,
}

#[derive(Clone, Copy)]
pub enum RoughRead {
    Is(RoughFields, Cursor),
    Refused(Refusal, usize),
}

// The value of a field, onto those so far.
fn rough_field(text: &[u8], c: Cursor, f: RoughFields, i: usize) -> RoughRead
    requires { Ready text.now c }
    ensures { RoughFieldMeans text.now c f i result }
{
    let strength = f.strength;
    let points = f.points;
    if i == 0 {
        return match read_cursor::parse_float(text, c) {
            FloatRead::Refused(r, p) => RoughRead::Refused(r, p),
            FloatRead::Is(x, m) => RoughRead::Is(
                RoughFields {
                    strength: Some(x),
                    points,
                },
                m,
            ),
        };
    }
    match read_cursor::parse_uint(text, c) {
        UintRead::Refused(r, p) => RoughRead::Refused(r, p),
        UintRead::Is(n, m) => RoughRead::Is(
            RoughFields {
                strength,
                points: Some(n),
            },
            m,
        ),
    }
}

fn next_rough(text: &[u8], c: Cursor) -> NextField
    requires { Ready text.now c }
    ensures { fields.PairMeans text.now c rough_fields result }
{
    read_fields::next_pair(text, c, words::List::RoughFields)
}

fn rough_fields(text: &[u8], c: Cursor) -> RoughRead
    requires { Ready text.now c }
    ensures { RoughMeans text.now c result }
{
    let mut m = c;
    let mut f = RoughFields {
        strength: None,
        points: None,
    };
    loop {
        match next_rough(text, m) {
            NextField::Refused(r, p) => return RoughRead::Refused(r, p),
            NextField::Done(e) => return RoughRead::Is(f, e),
            NextField::Field(i, v) => match rough_field(text, v, f, i) {
                RoughRead::Refused(r, p) => return RoughRead::Refused(r, p),
                RoughRead::Is(g, e) => {
                    let ate = read_cursor::eat(text, e, b',');
                    let next = ate.next;
                    if !ate.taken {
                        return RoughRead::Is(g, next);
                    }
                    f = g;
                    m = next;
                }
            },
        }
    }
}

// ---- slowmo

// The fields so far.
#[derive(Clone, Copy)]
pub struct SlowMoFields {
    pub linear_ratio: Option<f32>,
    pub power: Option<f32>,
}

#[derive(Clone, Copy)]
pub enum SlowMoRead {
    Is(SlowMoFields, Cursor),
    Refused(Refusal, usize),
}

// The value of a field, onto those so far.
fn slow_mo_field(text: &[u8], c: Cursor, f: SlowMoFields, i: usize) -> SlowMoRead
    requires { Ready text.now c }
    ensures { SlowMoFieldMeans text.now c f i result }
{
    let linear_ratio = f.linear_ratio;
    let power = f.power;
    if i == 0 {
        return match read_cursor::parse_float(text, c) {
            FloatRead::Refused(r, p) => SlowMoRead::Refused(r, p),
            FloatRead::Is(x, m) => SlowMoRead::Is(
                SlowMoFields {
                    linear_ratio: Some(x),
                    power,
                },
                m,
            ),
        };
    }
    match read_cursor::parse_float(text, c) {
        FloatRead::Refused(r, p) => SlowMoRead::Refused(r, p),
        FloatRead::Is(n, m) => SlowMoRead::Is(
            SlowMoFields {
                linear_ratio,
                power: Some(n),
            },
            m,
        ),
    }
}

fn next_slow_mo(text: &[u8], c: Cursor) -> NextField
    requires { Ready text.now c }
    ensures { fields.PairMeans text.now c slow_mo_fields result }
{
    read_fields::next_pair(text, c, words::List::SlowMoFields)
}

fn slow_mo_fields(text: &[u8], c: Cursor) -> SlowMoRead
    requires { Ready text.now c }
    ensures { SlowMoMeans text.now c result }
{
    let mut m = c;
    let mut f = SlowMoFields {
        linear_ratio: None,
        power: None,
    };
    loop {
        match next_slow_mo(text, m) {
            NextField::Refused(r, p) => return SlowMoRead::Refused(r, p),
            NextField::Done(e) => return SlowMoRead::Is(f, e),
            NextField::Field(i, v) => match slow_mo_field(text, v, f, i) {
                SlowMoRead::Refused(r, p) => return SlowMoRead::Refused(r, p),
                SlowMoRead::Is(g, e) => {
                    let ate = read_cursor::eat(text, e, b',');
                    let next = ate.next;
                    if !ate.taken {
                        return SlowMoRead::Is(g, next);
                    }
                    f = g;
                    m = next;
                }
            },
        }
    }
}

// ---- what is present, or else a default

pub fn word_or(o: Option<u32>, d: u32) -> u32
    ensures { result ≡ default (opt_word_of o) d }
{
    match o {
        None => d,
        Some(n) => n,
    }
}

pub fn case_or(o: Option<u8>, d: u8) -> u8
    ensures { result ≡ default (opt_case_of o) d }
{
    match o {
        None => d,
        Some(k) => k,
    }
}

pub fn float_or(o: Option<f32>, d: f32) -> f32
    ensures { FloatOr o d result }
{
    match o {
        None => d,
        Some(x) => x,
    }
}

// ---- the curves, and names

// `(strength: s, points: n)`, behind `rough`; 0.5 and 8 where they are left out.
fn rough_curve(text: &[u8], c: Cursor) -> EasingRead
    requires { Ready text.now c }
    ensures { EasingMeans text.now c rough_curve result }
{
    match read_cursor::mark(text, c, b'(') {
        MarkRead::Missing(p) => EasingRead::Refused(Refusal::Missing, p),
        MarkRead::Is(m) => match rough_fields(text, m) {
            RoughRead::Refused(r, p) => EasingRead::Refused(r, p),
            RoughRead::Is(f, n) => {
                let next = read_cursor::leave_group(text, n, b')');
                let s = f.strength;
                let k = f.points;
                let strength = float_or(s, 0.5);
                let points = word_or(k, 8);
                EasingRead::Is(EasingSpec::Rough { strength, points }, next)
            }
        },
    }
}

// `(linear_ratio: r, power: p)`, behind `slowmo`; 0.7 and 2.0 where they are left out.
fn slow_mo_curve(text: &[u8], c: Cursor) -> EasingRead
    requires { Ready text.now c }
    ensures { EasingMeans text.now c slow_mo_curve result }
{
    match read_cursor::mark(text, c, b'(') {
        MarkRead::Missing(p) => EasingRead::Refused(Refusal::Missing, p),
        MarkRead::Is(m) => match slow_mo_fields(text, m) {
            SlowMoRead::Refused(r, p) => EasingRead::Refused(r, p),
            SlowMoRead::Is(f, n) => {
                let next = read_cursor::leave_group(text, n, b')');
                let l = f.linear_ratio;
                let w = f.power;
                let linear_ratio = float_or(l, 0.7);
                let power = float_or(w, 2.0);
                EasingRead::Is(
                    EasingSpec::SlowMo {
                        linear_ratio,
                        power,
                    },
                    next,
                )
            }
        },
    }
}

// `(n)`, behind `steps`.
fn steps_curve(text: &[u8], c: Cursor) -> EasingRead
    requires { Ready text.now c }
    ensures { EasingMeans text.now c steps_curve result }
{
    match uint_in_parens(text, c) {
        UintRead::Refused(r, p) => EasingRead::Refused(r, p),
        UintRead::Is(n, m) => EasingRead::Is(EasingSpec::Steps(n), m),
    }
}

// `(n)`, behind `wiggle`.
fn wiggle_curve(text: &[u8], c: Cursor) -> EasingRead
    requires { Ready text.now c }
    ensures { EasingMeans text.now c wiggle_curve result }
{
    match uint_in_parens(text, c) {
        UintRead::Refused(r, p) => EasingRead::Refused(r, p),
        UintRead::Is(n, m) => EasingRead::Is(EasingSpec::Wiggle(n), m),
    }
}

// A word that is no curve's: a name, or the one behind `Easing::`.
fn named_easing(text: &[u8], name: Span, c: Cursor) -> EasingRead
    requires { Ready text.now c × (name.start + name.size ≤ length text.now) }
    ensures { NamedMeans text.now c (named_easing (name.start, spelled text.now name)) result }
{
    if !text::is_word(text::part(text, name.start, name.size), b"Easing") {
        return EasingRead::Is(EasingSpec::Named(false, name), c);
    }
    match read_cursor::both(text, c, b':', b':') {
        MarkRead::Missing(_) => EasingRead::Is(EasingSpec::Named(false, name), c),
        MarkRead::Is(m) => match read_cursor::word(text, m) {
            WordRead::Missing(p) => EasingRead::Refused(Refusal::Missing, p),
            WordRead::Is(variant, n) => EasingRead::Is(EasingSpec::Named(true, variant), n),
        },
    }
}

// The curve at a place of the table.
fn curve(text: &[u8], c: Cursor, i: usize) -> EasingRead
    requires { Ready text.now c }
    ensures { CurveMeans text.now c i result }
{
    match i {
        0 => bezier_curve(text, c),
        1 => steps_curve(text, c),
        2 => wiggle_curve(text, c),
        3 => rough_curve(text, c),
        _ => slow_mo_curve(text, c),
    }
}

// What follows a word in an easing's place.
fn after_word(text: &[u8], name: Span, c: Cursor) -> EasingRead
    requires { Ready text.now c × (name.start + name.size ≤ length text.now) }
    ensures { NamedMeans text.now c (curve_or (name.start, spelled text.now name)) result }
{
    match words::find(words::List::Curves, text, name.start, name.size) {
        None => named_easing(text, name, c),
        Some(i) => curve(text, c, i as usize),
    }
}

pub fn parse_easing(text: &[u8], c: Cursor) -> EasingRead
    requires { Ready text.now c }
    ensures { EasingMeans text.now c parse_easing result }
{
    if read_cursor::sees(c, b'(') {
        return EasingRead::Refused(Refusal::Malformed, read_cursor::place(c));
    }
    match read_cursor::word(text, c) {
        WordRead::Missing(p) => EasingRead::Refused(Refusal::Missing, p),
        WordRead::Is(name, m) => after_word(text, name, m),
    }
}

// ---- loop mode

// `(n)`, behind `times`.
fn times_mode(text: &[u8], c: Cursor) -> LoopRead
    requires { Ready text.now c }
    ensures { LoopMeans text.now c times_mode result }
{
    match uint_in_parens(text, c) {
        UintRead::Refused(r, p) => LoopRead::Refused(r, p),
        UintRead::Is(n, m) => LoopRead::Is(LoopSpec::Times(n), m),
    }
}

// `(n)` or nothing, behind `ping_pong`.
fn ping_pong_mode(text: &[u8], c: Cursor) -> LoopRead
    requires { Ready text.now c }
    ensures { ModeMeans text.now c ping_pong_mode result }
{
    if !read_cursor::sees(c, b'(') {
        return LoopRead::Is(LoopSpec::PingPong, c);
    }
    match uint_in_parens(text, c) {
        UintRead::Refused(r, p) => LoopRead::Refused(r, p),
        UintRead::Is(n, m) => LoopRead::Is(LoopSpec::PingPongTimes(n), m),
    }
}

// What follows the word of a mode, at a place of the table.
fn mode(text: &[u8], c: Cursor, i: usize) -> LoopRead
    requires { Ready text.now c }
    ensures { ModeAtMeans text.now c i result }
{
    match i {
        0 => LoopRead::Is(LoopSpec::Once, c),
        1 => LoopRead::Is(LoopSpec::Forever, c),
        2 => ping_pong_mode(text, c),
        _ => times_mode(text, c),
    }
}

pub fn parse_loop_mode(text: &[u8], c: Cursor) -> LoopRead
    requires { Ready text.now c }
    ensures { LoopMeans text.now c parse_loop_mode result }
{
    match read_cursor::word(text, c) {
        WordRead::Missing(p) => LoopRead::Refused(Refusal::Missing, p),
        WordRead::Is(name, m) => {
            match words::find(words::List::LoopModes, text, name.start, name.size) {
                None => LoopRead::Refused(Refusal::Malformed, read_cursor::place(m)),
                Some(i) => mode(text, m, i as usize),
            }
        }
    }
}
