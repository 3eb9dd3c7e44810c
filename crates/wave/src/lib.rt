// 02 (l): one period of a waveform, drawn as 256 heights.
#![tactic(auto)]

mod table;

ghost use Rattle.std.specs.Prelude.{◌≡◌, ◌<◌, ◌≤◌, ◌+◌, ◌%◌, pos, ◌-ℤ◌, length};
ghost use Rattle.error.specs.Answer.{check_values};
ghost use Rattle.drawing.specs.Wave.{filled, shifted, sine_at, triangle_at, quarter_of, folded, mirrored, height, drawing};

use error::{CheckAnswer, Refusal};
use table::QUARTER;

// The sine at a step of its first quarter.
fn sine(p: u32) -> u32
    requires { p ≤ 64 }
    ensures { result ≡ sine_at p }
{
    u32::from(QUARTER[(16 * p) as usize])
}

// The triangle at a step of its first quarter.
fn triangle(p: u32) -> u32
    requires { p ≤ 64 }
    ensures { result ≡ triangle_at p }
{
    32767 * p / 64
}

// The sine or the triangle at a step of its first quarter.
fn quarter(kind: u32, p: u32) -> u32
    requires { p ≤ 64 }
    ensures { (result ≡ quarter_of kind p) × (result ≤ 32767) }
{
    if kind == 0 { sine(p) } else { triangle(p) }
}

// The step of the first quarter that a step of the first half mirrors.
fn fold(p: u32) -> u32
    requires { p < 128 }
    ensures { (result ≡ folded p) × (result ≤ 64) }
{
    if p <= 64 { p } else { 128 - p }
}

// One number less another, with its sign.
fn less(a: u32, b: u32) -> i16
    requires { (a ≤ b + 32767) × (b ≤ 32767) }
    ensures { result ≡ pos a -ℤ pos b }
{
    (a as i32 - b as i32) as i16
}

// The height of the sine or the triangle at a step: the second half is the first with the other sign.
fn mirror(kind: u32, p: u32) -> i16
    requires { p < 256 }
    ensures { result ≡ mirrored kind p }
{
    if p < 128 {
        less(quarter(kind, fold(p)), 0)
    } else {
        less(0, quarter(kind, fold(p - 128)))
    }
}

// The height of a kind at a step, the kinds as WaveformKind has them: 0 sine, 1 sawtooth, 2 square, 3 triangle.
fn height_at(kind: u32, p: u32) -> i16
    requires { p < 256 }
    ensures { result ≡ height kind p }
{
    match kind {
        1 => less(65534 * p / 255, 32767),
        2 => {
            if p < 128 {
                less(32767, 0)
            } else {
                less(0, 32767)
            }
        }
        _ => mirror(kind, p),
    }
}

// The step that is drawn at a place.
fn step_at(i: usize, phase: u32) -> u32
    requires { (i < 256) × (phase < 256) }
    ensures { (result ≡ (i + phase) % 256) × (result < 256) }
{
    (i as u32 + phase) % 256
}

// Fills the first 256 heights.
fn fill(kind: u32, phase: u32, heights: &mut [i16])
    requires { (phase < 256) × (256 ≤ length heights.old) }
    ensures { heights.new ≡ filled (shifted kind phase) 256 heights.old }
{
    for i in 0..256 {
        heights[i] = height_at(kind, step_at(i, phase));
    }
}

// Draws one period of a kind, from a phase on, into the first 256 heights; those behind them stay as lent. On a refusal all of them do.
pub fn wave(kind: u32, phase: u32, heights: &mut [i16]) -> CheckAnswer
    ensures heights_after { (result, heights.new) ≡ drawing kind phase heights.old }
    ensures values { check_values result ≡ check_values (drawing kind phase heights.old).0 }
{
    if 4 <= kind {
        return CheckAnswer::Refused {
            refusal: Refusal::NotDrawn,
            place: 0,
        };
    }
    if 256 <= phase {
        return CheckAnswer::Refused {
            refusal: Refusal::PhaseTooLarge,
            place: 0,
        };
    }
    if heights.len() < 256 {
        return CheckAnswer::Refused {
            refusal: Refusal::OutputTooShort,
            place: 0,
        };
    }
    fill(kind, phase, heights);
    CheckAnswer::Accepted
}
