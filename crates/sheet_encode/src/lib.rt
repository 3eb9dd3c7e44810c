// The writing side of the sheet: each value's bytes from a place on, as far as the lent slice goes, while the place behind
// them goes on counting. All of it is for our own crates, whose places stay below 2^31 and whose floats are no NaN. Where a
// contract holds for every n, a form's bound for reading (the text's length, a number of cases), n is not written.
#![tactic(auto)]

ghost use Rattle.std.specs.Prelude.{◌≡◌, [], ◌∷◌, ◌++◌, ℕ, ◌+◌, ◌-◌, ◌^◌, ◌≤◌, ◌<◌, length, take, replicate};
ghost use Rattle.number.specs.Number.{bits};
ghost use Rattle.codec.specs.Codec.{big, below, opt, ◌▹◌};
ghost use Rattle.ast.specs.Tree.{scalar, named, cubic_bezier};
ghost use Rattle.sheet.specs.Sheet.{word, flag, span_form, value_form, easing_form, loop_form, damping_form, time_form, pattern_form};
ghost use Rattle.sheet_encode.specs.WriteMeans.{Writes};
ghost use Rattle.sheet_encode.specs.Means as of;
ghost use Rattle.sheet_encode.specs.Means.{Plain};

use ast::{DampingMode, EasingSpec, LoopSpec, Span, StaggerPatternSpec};

// ---- bytes and fields

// Writes a byte.
pub fn put_byte(sheet: &mut [u8], at: usize, b: u8) -> usize
    requires { at < 2 ^ 34 }
    ensures { Writes sheet.old at (b ∷ []) sheet.new result }
{
    text::put(sheet, at, b);
    at + 1
}

// Writes a whole number in `width` bytes, the highest first, as far as there is room.
fn put_clipped(sheet: &mut [u8], at: usize, width: usize, v: usize) -> usize
    requires { at + width < 2 ^ 34 }
    ensures { Writes sheet.old at ((big width).write v) sheet.new result }
{
    let mut rest = v;
    for k in (0..width).rev() {
        text::put(sheet, at + k, (rest % 256) as u8);
        rest /= 256;
    }
    at + width
}

// The same, where there is room.
fn put_whole(sheet: &mut [u8], at: usize, width: usize, v: usize) -> usize
    requires { (at + width < 2 ^ 34) × (at + width ≤ length sheet.old) }
    ensures { Writes sheet.old at ((big width).write v) sheet.new result }
{
    let mut rest = v;
    for k in (0..width).rev() {
        sheet[at + k] = (rest % 256) as u8;
        rest /= 256;
    }
    at + width
}

// Writes a whole number in `width` bytes, the highest first: one test of the room.
pub fn put_field(sheet: &mut [u8], at: usize, width: usize, v: usize) -> usize
    requires { at + width < 2 ^ 34 }
    ensures { Writes sheet.old at ((big width).write v) sheet.new result }
{
    if at + width <= sheet.len() {
        return put_whole(sheet, at, width, v);
    }
    put_clipped(sheet, at, width, v)
}

// Writes a count over the two bytes that were left for it.
pub fn patch_count(sheet: &mut [u8], at: usize, count: usize) -> usize
    requires { at < 2 ^ 33 }
    ensures { Writes sheet.old at ((big 2).write count) sheet.new result }
{
    put_field(sheet, at, 2, count)
}

// Writes what a node's record begins with: its kind, and the start of its keyword.
pub fn put_front(sheet: &mut [u8], at: usize, kind: u8, start: usize) -> usize
    requires { at < 2 ^ 33 }
    ensures { Writes sheet.old at (kind ∷ (big 2).write start) sheet.new result }
{
    put_field(sheet, at, 3, kind as usize * 65536 + start % 65536)
}

// Writes a truth value.
pub fn put_flag(sheet: &mut [u8], at: usize, b: bool) -> usize
    requires { at < 2 ^ 33 }
    ensures { Writes sheet.old at (flag.write b) sheet.new result }
{
    put_byte(sheet, at, u8::from(b))
}

// Writes a u32.
pub fn put_word(sheet: &mut [u8], at: usize, v: u32) -> usize
    requires { at < 2 ^ 33 }
    ensures { Writes sheet.old at (word.write v) sheet.new result }
{
    put_field(sheet, at, 4, v as usize)
}

// Writes an f32 by its bits.
pub fn put_float(sheet: &mut [u8], at: usize, x: f32) -> usize
    requires { (at < 2 ^ 33) × Plain x }
    ensures { Writes sheet.old at (word.write (bits x)) sheet.new result }
{
    put_word(sheet, at, number::bits_of(x))
}

// Writes the place of a name or a string.
pub fn put_span(sheet: &mut [u8], at: usize, s: Span) -> usize
    requires { at < 2 ^ 33 }
    ensures { (n : ℕ) → Writes sheet.old at ((span_form n).write (of.span_of s)) sheet.new result }
{
    put_field(sheet, at, 4, s.start % 65536 * 65536 + s.size % 65536)
}

// ---- the position of a case, and its fields

// Writes the position of a case that holds a u32, and that.
fn put_case_word(sheet: &mut [u8], at: usize, case: u8, v: u32) -> usize
    requires { at < 2 ^ 32 }
    ensures { Writes sheet.old at (case ∷ word.write v) sheet.new result }
{
    put_field(sheet, at, 5, case as usize * 4294967296 + v as usize)
}

// Writes the position of a case that holds an f32, and that.
fn put_case_float(sheet: &mut [u8], at: usize, case: u8, x: f32) -> usize
    requires { (at < 2 ^ 32) × Plain x }
    ensures { Writes sheet.old at (case ∷ word.write (bits x)) sheet.new result }
{
    put_case_word(sheet, at, case, number::bits_of(x))
}

// Writes the position of a case that holds two f32, and those.
fn put_case_floats(sheet: &mut [u8], at: usize, case: u8, x: f32, y: f32) -> usize
    requires { (at < 2 ^ 32) × (Plain x × Plain y) }
    ensures { Writes sheet.old at (case ∷ (word ▹ word).write (bits x, bits y)) sheet.new result }
{
    let next = put_case_float(sheet, at, case, x);
    put_float(sheet, next, y)
}

// Writes a value that is one number. An array's elements are the caller's.
pub fn put_scalar(sheet: &mut [u8], at: usize, x: f32) -> usize
    requires { (at < 2 ^ 32) × Plain x }
    ensures { Writes sheet.old at (value_form.write (scalar (bits x))) sheet.new result }
{
    put_case_float(sheet, at, 0, x)
}

// ---- enums

// `Named` of an easing.
fn put_named(sheet: &mut [u8], at: usize, variant: bool, name: Span) -> usize
    requires { at < 2 ^ 32 }
    ensures { (n : ℕ) → Writes sheet.old at ((easing_form n).write (named variant (of.span_of name))) sheet.new result }
{
    let variant_at = put_byte(sheet, at, 0);
    let name_at = put_flag(sheet, variant_at, variant);
    put_span(sheet, name_at, name)
}

// `CubicBezier` of an easing.
fn put_bezier(sheet: &mut [u8], at: usize, a: f32, b: f32, c: f32, d: f32) -> usize
    requires { (at < 2 ^ 32) × (Plain a × Plain b × Plain c × Plain d) }
    ensures { (n : ℕ) → Writes sheet.old at ((easing_form n).write (cubic_bezier (bits a) (bits b) (bits c) (bits d))) sheet.new result }
{
    let third_at = put_case_floats(sheet, at, 1, a, b);
    let fourth_at = put_float(sheet, third_at, c);
    put_float(sheet, fourth_at, d)
}

pub fn put_easing(sheet: &mut [u8], at: usize, e: EasingSpec) -> usize
    requires { (at < 2 ^ 32) × of.PlainEasing e }
    ensures { (n : ℕ) → Writes sheet.old at ((easing_form n).write (of.easing_of e)) sheet.new result }
{
    match e {
        EasingSpec::Named(variant, name) => put_named(sheet, at, variant, name),
        EasingSpec::CubicBezier(x1, y1, x2, y2) => put_bezier(sheet, at, x1, y1, x2, y2),
        EasingSpec::Steps(n) => put_case_word(sheet, at, 2, n),
        EasingSpec::Wiggle(n) => put_case_word(sheet, at, 3, n),
        EasingSpec::Rough { strength, points } => {
            let points_at = put_case_float(sheet, at, 4, strength);
            put_word(sheet, points_at, points)
        }
        EasingSpec::SlowMo {
            linear_ratio,
            power,
        } => put_case_floats(sheet, at, 5, linear_ratio, power),
    }
}

pub fn put_loop(sheet: &mut [u8], at: usize, m: LoopSpec) -> usize
    requires { at < 2 ^ 32 }
    ensures { Writes sheet.old at (loop_form.write (of.loop_of m)) sheet.new result }
{
    match m {
        LoopSpec::Once => put_byte(sheet, at, 0),
        LoopSpec::Times(n) => put_case_word(sheet, at, 1, n),
        LoopSpec::Forever => put_byte(sheet, at, 2),
        LoopSpec::PingPong => put_byte(sheet, at, 3),
        LoopSpec::PingPongTimes(n) => put_case_word(sheet, at, 4, n),
    }
}

pub fn put_damping(sheet: &mut [u8], at: usize, d: DampingMode) -> usize
    requires { (at < 2 ^ 32) × of.PlainDamping d }
    ensures { Writes sheet.old at (damping_form.write (of.damping_of d)) sheet.new result }
{
    match d {
        DampingMode::CriticallyDamped(s) => put_case_float(sheet, at, 0, s),
        DampingMode::Overdamped(s, r) => put_case_floats(sheet, at, 1, s, r),
        DampingMode::Underdamped(s, r) => put_case_floats(sheet, at, 2, s, r),
    }
}

// A keyframe's time, which is a percent or not.
pub fn put_time(sheet: &mut [u8], at: usize, percent: bool, time: f32) -> usize
    requires { (at < 2 ^ 32) × Plain time }
    ensures { Writes sheet.old at (time_form.write (of.key_time_of percent time)) sheet.new result }
{
    if percent {
        return put_case_float(sheet, at, 0, time);
    }
    put_case_float(sheet, at, 1, time)
}

pub fn put_pattern(sheet: &mut [u8], at: usize, p: StaggerPatternSpec) -> usize
    requires { (at < 2 ^ 32) × of.PlainPattern p }
    ensures { Writes sheet.old at (pattern_form.write (of.pattern_of p)) sheet.new result }
{
    match p {
        StaggerPatternSpec::Grid { cols, rows, origin } => {
            let rows_at = put_case_word(sheet, at, 0, cols);
            let origin_at = put_word(sheet, rows_at, rows);
            put_byte(sheet, origin_at, origin)
        }
        StaggerPatternSpec::Random { seed, min, max } => {
            let min_at = put_case_word(sheet, at, 1, seed);
            let max_at = put_float(sheet, min_at, min);
            put_float(sheet, max_at, max)
        }
        StaggerPatternSpec::CenterOut => put_byte(sheet, at, 2),
        StaggerPatternSpec::EdgesIn => put_byte(sheet, at, 3),
    }
}

// ---- what is absent or present

pub fn put_opt_float(sheet: &mut [u8], at: usize, o: Option<f32>) -> usize
    requires { (at < 2 ^ 31) × of.PlainOptFloat o }
    ensures { Writes sheet.old at ((opt word).write (of.opt_float_of o)) sheet.new result }
{
    match o {
        None => put_byte(sheet, at, 0),
        Some(x) => put_case_float(sheet, at, 1, x),
    }
}

pub fn put_opt_word(sheet: &mut [u8], at: usize, o: Option<u32>) -> usize
    requires { at < 2 ^ 31 }
    ensures { Writes sheet.old at ((opt word).write (of.opt_word_of o)) sheet.new result }
{
    match o {
        None => put_byte(sheet, at, 0),
        Some(v) => put_case_word(sheet, at, 1, v),
    }
}

pub fn put_opt_bool(sheet: &mut [u8], at: usize, o: Option<bool>) -> usize
    requires { at < 2 ^ 31 }
    ensures { Writes sheet.old at ((opt flag).write (of.opt_bool_of o)) sheet.new result }
{
    match o {
        None => put_byte(sheet, at, 0),
        Some(b) => {
            let next = put_byte(sheet, at, 1);
            put_flag(sheet, next, b)
        }
    }
}

// The position of a case that holds nothing, of n cases.
pub fn put_opt_case(sheet: &mut [u8], at: usize, o: Option<u8>) -> usize
    requires { at < 2 ^ 31 }
    ensures { (n : ℕ) → Writes sheet.old at ((opt (below n)).write (of.opt_case_of o)) sheet.new result }
{
    match o {
        None => put_byte(sheet, at, 0),
        Some(i) => {
            let next = put_byte(sheet, at, 1);
            put_byte(sheet, next, i)
        }
    }
}

pub fn put_opt_range(sheet: &mut [u8], at: usize, o: Option<(f32, f32)>) -> usize
    requires { (at < 2 ^ 31) × of.PlainOptRange o }
    ensures { Writes sheet.old at ((opt (word ▹ word)).write (of.opt_range_of o)) sheet.new result }
{
    match o {
        None => put_byte(sheet, at, 0),
        Some((a, b)) => put_case_floats(sheet, at, 1, a, b),
    }
}

pub fn put_opt_easing(sheet: &mut [u8], at: usize, o: Option<EasingSpec>) -> usize
    requires { (at < 2 ^ 31) × of.PlainOptEasing o }
    ensures { (n : ℕ) → Writes sheet.old at ((opt (easing_form n)).write (of.opt_easing_of o)) sheet.new result }
{
    match o {
        None => put_byte(sheet, at, 0),
        Some(e) => {
            let next = put_byte(sheet, at, 1);
            put_easing(sheet, next, e)
        }
    }
}

pub fn put_opt_loop(sheet: &mut [u8], at: usize, o: Option<LoopSpec>) -> usize
    requires { at < 2 ^ 31 }
    ensures { Writes sheet.old at ((opt loop_form).write (of.opt_loop_of o)) sheet.new result }
{
    match o {
        None => put_byte(sheet, at, 0),
        Some(m) => {
            let next = put_byte(sheet, at, 1);
            put_loop(sheet, next, m)
        }
    }
}

pub fn put_opt_damping(sheet: &mut [u8], at: usize, o: Option<DampingMode>) -> usize
    requires { (at < 2 ^ 31) × of.PlainOptDamping o }
    ensures { Writes sheet.old at ((opt damping_form).write (of.opt_damping_of o)) sheet.new result }
{
    match o {
        None => put_byte(sheet, at, 0),
        Some(d) => {
            let next = put_byte(sheet, at, 1);
            put_damping(sheet, next, d)
        }
    }
}

pub fn put_opt_pattern(sheet: &mut [u8], at: usize, o: Option<StaggerPatternSpec>) -> usize
    requires { (at < 2 ^ 31) × of.PlainOptPattern o }
    ensures { Writes sheet.old at ((opt pattern_form).write (of.opt_pattern_of o)) sheet.new result }
{
    match o {
        None => put_byte(sheet, at, 0),
        Some(p) => {
            let next = put_byte(sheet, at, 1);
            put_pattern(sheet, next, p)
        }
    }
}

// ---- clearing

// Zeroes a sheet from a place on.
pub fn clear(sheet: &mut [u8], from: usize)
    ensures { sheet.new ≡ take from sheet.old ++ replicate (length sheet.old - from) 0 }
{
    if from < sheet.len() {
        sheet[from..].fill(0);
    }
}
