// The rules of each kind of node, in validate.rs's order and under its names.
ghost use Rattle.std.specs.Prelude.{◌≡◌};
ghost use Rattle.ast.specs.Means.{tween_view, spring_view, path_view, morph_view, draw_view, color_view, waveform_view, preset_view};
ghost use Rattle.colors.specs.Css.{names_of};
ghost use Rattle.checking.specs.Rules.{validate_tween, validate_spring, validate_path, validate_morph, validate_draw, validate_color, validate_waveform, validate_preset_call};
ghost use Rattle.node_rules.specs.Means.{fault_of, Tells, StaggerTells, outside_unit, range_outside_unit, empty};

use crate::faults::{is_mismatched, validate_easing};
use ast::{
    ColorSpec, DrawSpec, MorphSpec, PathSpec, PresetCall, SpringSpec, StaggerPatternSpec,
    StaggerSpec, TweenSpec, WaveformSpec,
};
use error::Refusal;

// validate_loop_mode refuses nothing.
pub fn validate_tween(text: &[u8], spec: TweenSpec) -> Result<(), Refusal>
    ensures { Tells tween_view (validate_tween text.now) spec (fault_of result) }
{
    if spec.duration < 0.0 {
        return Err(Refusal::OutOfRange);
    }
    if is_mismatched(spec.from, spec.to) {
        return Err(Refusal::ValueTypeMismatch);
    }
    validate_easing(text, spec.easing)?;
    if spec.time_scale.is_some_and(|x| x < 0.0) {
        return Err(Refusal::OutOfRange);
    }
    if spec.delay.is_some_and(|x| x < 0.0) {
        return Err(Refusal::OutOfRange);
    }
    Ok(())
}

pub fn validate_spring(spec: SpringSpec) -> Result<(), Refusal>
    ensures { Tells spring_view validate_spring spec (fault_of result) }
{
    if is_mismatched(spec.from, spec.to) {
        return Err(Refusal::ValueTypeMismatch);
    }
    if spec.stiffness.is_some_and(|x| x < 0.0) {
        return Err(Refusal::OutOfRange);
    }
    if spec.mass.is_some_and(|x| x <= 0.0) {
        return Err(Refusal::OutOfRange);
    }
    if spec.epsilon.is_some_and(|x| x <= 0.0) {
        return Err(Refusal::OutOfRange);
    }
    Ok(())
}

#[tactic(auto, unfolding(number::specs::Number::f32))]
fn is_outside_unit(x: f32) -> bool
    ensures { result ≡ outside_unit x }
{
    !(0.0 <= x && x <= 1.0)
}

// Whether an end of a range is outside 0.0 to 1.0.
fn is_range_outside_unit(range: (f32, f32)) -> bool
    ensures { result ≡ range_outside_unit range }
{
    is_outside_unit(range.0) || is_outside_unit(range.1)
}

pub fn validate_path(text: &[u8], spec: PathSpec) -> Result<(), Refusal>
    ensures { Tells path_view (validate_path text.now) spec (fault_of result) }
{
    if spec.duration < 0.0 {
        return Err(Refusal::OutOfRange);
    }
    validate_easing(text, spec.easing)?;
    if spec.offset.is_some_and(is_range_outside_unit) {
        return Err(Refusal::OutOfRange);
    }
    Ok(())
}

pub fn validate_morph(text: &[u8], spec: MorphSpec) -> Result<(), Refusal>
    ensures { Tells morph_view (validate_morph text.now) spec (fault_of result) }
{
    if spec.duration < 0.0 {
        return Err(Refusal::OutOfRange);
    }
    if spec.samples == 0 {
        return Err(Refusal::OutOfRange);
    }
    validate_easing(text, spec.easing)
}

pub fn validate_draw(text: &[u8], spec: DrawSpec) -> Result<(), Refusal>
    ensures { Tells draw_view (validate_draw text.now) spec (fault_of result) }
{
    if spec.duration < 0.0 {
        return Err(Refusal::OutOfRange);
    }
    validate_easing(text, spec.easing)
}

pub fn validate_color(text: &[u8], spec: ColorSpec, list: u32) -> Result<(), Refusal>
    ensures { Tells color_view (validate_color (names_of list) text.now) spec (fault_of result) }
{
    if spec.duration < 0.0 {
        return Err(Refusal::OutOfRange);
    }
    if !colors::is_color(text, spec.from.start, spec.from.size, list) {
        return Err(Refusal::InvalidColor);
    }
    if !colors::is_color(text, spec.to.start, spec.to.size, list) {
        return Err(Refusal::InvalidColor);
    }
    validate_easing(text, spec.easing)
}

// The kind that is retired: 02 (h).
const NOISE: u8 = 4;

pub fn validate_waveform(spec: WaveformSpec) -> Result<(), Refusal>
    ensures { Tells waveform_view validate_waveform spec (fault_of result) }
{
    if spec.kind == NOISE {
        return Err(Refusal::NoiseHeld);
    }
    if spec.frequency.is_some_and(|x| x < 0.0) {
        return Err(Refusal::OutOfRange);
    }
    Ok(())
}

pub fn validate_preset_call(text: &[u8], call: PresetCall) -> Result<(), Refusal>
    ensures { Tells preset_view (validate_preset_call text.now) call (fault_of result) }
{
    if !presets::is_known_preset(text, call.name.start, call.name.size) {
        return Err(Refusal::UnknownPreset);
    }
    validate_easing(text, call.easing)?;
    if call.duration.is_some_and(|x| x < 0.0) {
        return Err(Refusal::OutOfRange);
    }
    Ok(())
}

fn is_empty_grid(pattern: StaggerPatternSpec) -> bool
    ensures { result ≡ empty pattern }
{
    match pattern {
        StaggerPatternSpec::Grid {
            cols,
            rows,
            origin: _,
        } => cols == 0 || rows == 0,
        _ => false,
    }
}

// A stagger's own fields.
pub fn validate_stagger(spec: StaggerSpec) -> Result<(), Refusal>
    ensures { StaggerTells spec result }
{
    if spec.pattern.is_some_and(is_empty_grid) {
        return Err(Refusal::OutOfRange);
    }
    Ok(())
}
