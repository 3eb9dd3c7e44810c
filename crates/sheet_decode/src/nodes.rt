// Records: a node's fields behind its kind and start, decoded into values. A sequence and a parallel have a count alone, and a label a
// span alone: `take_field` and `take_span` read these.
ghost use Rattle.std.specs.Prelude.{length};
ghost use Rattle.codec.specs.Codec.{◌▹◌, below, big, opt, each};
ghost use Rattle.sheet.specs.Sheet.{word, pattern_form, entry_form, tween_form, spring_form, keyframes_form, path_form, morph_form, draw_form, color_form, waveform_form, preset_form, at_form};
ghost use Rattle.ast.specs.Means.{entry_view, tween_view, spring_view, keyframes_view, group_view, stagger_view, path_view, morph_view, draw_view, color_view, waveform_view, preset_view, at_view};
ghost use Rattle.sheet_decode.specs.Means.{Reads};

use crate::fields::{Taken, take_byte, take_field, take_flag, take_float, take_span};
use crate::optional::take_opt;
use crate::values::{
    take_damping, take_easing, take_loop, take_pattern, take_range, take_time, take_value,
};
use ast::{
    AtSpec, ColorSpec, DrawSpec, GroupSpec, KeyframeEntry, KeyframeSpec, MorphSpec, PathSpec,
    PresetCall, SpringSpec, StaggerSpec, TweenSpec, WaveformSpec,
};

// One keyframe entry, by value; an array's elements are passed.
pub fn take_entry(s: &[u8], at: usize, n: usize) -> Taken<KeyframeEntry>
    ensures { Reads (entry_form n) entry_view s.now at result.v result.next }
{
    let time = take_time(s, at);
    let value = take_value(s, time.next);
    let easing = take_opt(s, value.next, |a| take_easing(s, a, n));
    let (percent, seconds) = time.v;
    let v = ast::entry_of(percent, seconds, value.v, easing.v);
    Taken {
        v,
        next: easing.next,
    }
}

pub fn take_tween(s: &[u8], at: usize, n: usize) -> Taken<TweenSpec>
    ensures { Reads (tween_form n) tween_view s.now at result.v result.next }
{
    let target = take_span(s, at, n);
    let from = take_value(s, target.next);
    let to = take_value(s, from.next);
    let duration = take_float(s, to.next);
    let easing = take_opt(s, duration.next, |a| take_easing(s, a, n));
    let delay = take_opt(s, easing.next, |a| take_float(s, a));
    let time_scale = take_opt(s, delay.next, |a| take_float(s, a));
    let loop_mode = take_opt(s, time_scale.next, |a| take_loop(s, a));
    let snap = take_opt(s, loop_mode.next, |a| take_float(s, a));
    let round = take_opt(s, snap.next, |a| take_field(s, a, 4));
    let reverse = take_flag(s, round.next);
    let v = TweenSpec {
        target: target.v,
        from: from.v,
        to: to.v,
        duration: duration.v,
        easing: easing.v,
        delay: delay.v,
        time_scale: time_scale.v,
        loop_mode: loop_mode.v,
        snap: snap.v,
        round: round.v,
        reverse: reverse.v,
    };
    Taken {
        v,
        next: reverse.next,
    }
}

pub fn take_spring(s: &[u8], at: usize, n: usize) -> Taken<SpringSpec>
    ensures { Reads (spring_form n) spring_view s.now at result.v result.next }
{
    let target = take_span(s, at, n);
    let from = take_value(s, target.next);
    let to = take_value(s, from.next);
    let preset = take_opt(s, to.next, |a| take_byte(s, a, 5));
    let stiffness = take_opt(s, preset.next, |a| take_float(s, a));
    let damping = take_opt(s, stiffness.next, |a| take_float(s, a));
    let mass = take_opt(s, damping.next, |a| take_float(s, a));
    let velocity = take_opt(s, mass.next, |a| take_value(s, a));
    let epsilon = take_opt(s, velocity.next, |a| take_float(s, a));
    let integrator = take_opt(s, epsilon.next, |a| take_byte(s, a, 2));
    let damping_mode = take_opt(s, integrator.next, |a| take_damping(s, a));
    let v = SpringSpec {
        target: target.v,
        from: from.v,
        to: to.v,
        preset: preset.v,
        stiffness: stiffness.v,
        damping: damping.v,
        mass: mass.v,
        velocity: velocity.v,
        epsilon: epsilon.v,
        integrator: integrator.v,
        damping_mode: damping_mode.v,
    };
    Taken {
        v,
        next: damping_mode.next,
    }
}

// Past so many entries.
pub fn skip_entries(s: &[u8], at: usize, n: usize, count: usize) -> usize
    ensures { Reads (each (entry_form n) count) length s.now at count result }
{
    let mut next = at;
    for _ in 0..count {
        next = take_entry(s, next, n).next;
    }
    next
}

// A track, and how many entries it has; they are passed.
pub fn take_keyframes(s: &[u8], at: usize, n: usize) -> Taken<KeyframeSpec>
    ensures { Reads (keyframes_form n) keyframes_view s.now at result.v result.next }
{
    let target = take_span(s, at, n);
    let count = take_field(s, target.next, 2);
    let frames = count.v as usize;
    let end = skip_entries(s, count.next, n, frames);
    let loop_mode = take_opt(s, end, |a| take_loop(s, a));
    let v = KeyframeSpec {
        target: target.v,
        frames,
        loop_mode: loop_mode.v,
    };
    Taken {
        v,
        next: loop_mode.next,
    }
}

// A group's mode, and how many nodes it holds.
pub fn take_group(s: &[u8], at: usize) -> Taken<GroupSpec>
    ensures { Reads (below 2 ▹ big 2) (λ p. group_view p.0 p.1) s.now at result.v result.next }
{
    let mode = take_byte(s, at, 2);
    let nodes = take_field(s, mode.next, 2);
    let v = GroupSpec {
        mode: mode.v,
        nodes: nodes.v as usize,
    };
    Taken {
        v,
        next: nodes.next,
    }
}

// A stagger's own fields, and how many nodes it holds.
pub fn take_stagger(s: &[u8], at: usize) -> Taken<StaggerSpec>
    ensures { Reads (opt pattern_form ▹ opt word ▹ big 2) (λ p. stagger_view p.0 p.1.0 p.1.1) s.now at result.v result.next }
{
    let pattern = take_opt(s, at, |a| take_pattern(s, a));
    let delay = take_opt(s, pattern.next, |a| take_float(s, a));
    let nodes = take_field(s, delay.next, 2);
    let v = StaggerSpec {
        pattern: pattern.v,
        delay: delay.v,
        nodes: nodes.v as usize,
    };
    Taken {
        v,
        next: nodes.next,
    }
}

pub fn take_path(s: &[u8], at: usize, n: usize) -> Taken<PathSpec>
    ensures { Reads (path_form n) path_view s.now at result.v result.next }
{
    let target = take_span(s, at, n);
    let svg = take_span(s, target.next, n);
    let duration = take_float(s, svg.next);
    let easing = take_opt(s, duration.next, |a| take_easing(s, a, n));
    let auto_rotate = take_opt(s, easing.next, |a| take_flag(s, a));
    let offset = take_opt(s, auto_rotate.next, |a| take_range(s, a));
    let loop_mode = take_opt(s, offset.next, |a| take_loop(s, a));
    let v = PathSpec {
        target: target.v,
        svg: svg.v,
        duration: duration.v,
        easing: easing.v,
        auto_rotate: auto_rotate.v,
        offset: offset.v,
        loop_mode: loop_mode.v,
    };
    Taken {
        v,
        next: loop_mode.next,
    }
}

pub fn take_morph(s: &[u8], at: usize, n: usize) -> Taken<MorphSpec>
    ensures { Reads (morph_form n) morph_view s.now at result.v result.next }
{
    let from = take_span(s, at, n);
    let to = take_span(s, from.next, n);
    let samples = take_field(s, to.next, 4);
    let duration = take_float(s, samples.next);
    let easing = take_opt(s, duration.next, |a| take_easing(s, a, n));
    let v = MorphSpec {
        from: from.v,
        to: to.v,
        samples: samples.v,
        duration: duration.v,
        easing: easing.v,
    };
    Taken {
        v,
        next: easing.next,
    }
}

pub fn take_draw(s: &[u8], at: usize, n: usize) -> Taken<DrawSpec>
    ensures { Reads (draw_form n) draw_view s.now at result.v result.next }
{
    let svg = take_span(s, at, n);
    let duration = take_float(s, svg.next);
    let easing = take_opt(s, duration.next, |a| take_easing(s, a, n));
    let v = DrawSpec {
        svg: svg.v,
        duration: duration.v,
        easing: easing.v,
    };
    Taken {
        v,
        next: easing.next,
    }
}

pub fn take_color(s: &[u8], at: usize, n: usize) -> Taken<ColorSpec>
    ensures { Reads (color_form n) color_view s.now at result.v result.next }
{
    let target = take_span(s, at, n);
    let from = take_span(s, target.next, n);
    let to = take_span(s, from.next, n);
    let duration = take_float(s, to.next);
    let space = take_byte(s, duration.next, 3);
    let easing = take_opt(s, space.next, |a| take_easing(s, a, n));
    let v = ColorSpec {
        target: target.v,
        from: from.v,
        to: to.v,
        duration: duration.v,
        space: space.v,
        easing: easing.v,
    };
    Taken {
        v,
        next: easing.next,
    }
}

pub fn take_waveform(s: &[u8], at: usize) -> Taken<WaveformSpec>
    ensures { Reads waveform_form waveform_view s.now at result.v result.next }
{
    let kind = take_byte(s, at, 5);
    let frequency = take_opt(s, kind.next, |a| take_float(s, a));
    let amplitude = take_opt(s, frequency.next, |a| take_float(s, a));
    let phase = take_opt(s, amplitude.next, |a| take_float(s, a));
    let duty_cycle = take_opt(s, phase.next, |a| take_float(s, a));
    let seed = take_opt(s, duty_cycle.next, |a| take_field(s, a, 4));
    let smoothness = take_opt(s, seed.next, |a| take_float(s, a));
    let duration = take_opt(s, smoothness.next, |a| take_float(s, a));
    let v = WaveformSpec {
        kind: kind.v,
        frequency: frequency.v,
        amplitude: amplitude.v,
        phase: phase.v,
        duty_cycle: duty_cycle.v,
        seed: seed.v,
        smoothness: smoothness.v,
        duration: duration.v,
    };
    Taken {
        v,
        next: duration.next,
    }
}

pub fn take_preset(s: &[u8], at: usize, n: usize) -> Taken<PresetCall>
    ensures { Reads (preset_form n) preset_view s.now at result.v result.next }
{
    let name = take_span(s, at, n);
    let duration = take_opt(s, name.next, |a| take_float(s, a));
    let easing = take_opt(s, duration.next, |a| take_easing(s, a, n));
    let v = PresetCall {
        name: name.v,
        duration: duration.v,
        easing: easing.v,
    };
    Taken {
        v,
        next: easing.next,
    }
}

pub fn take_at(s: &[u8], at: usize) -> Taken<AtSpec>
    ensures { Reads at_form at_view s.now at result.v result.next }
{
    let value = take_float(s, at);
    let relative = take_flag(s, value.next);
    let v = AtSpec {
        value: value.v,
        relative: relative.v,
    };
    Taken {
        v,
        next: relative.next,
    }
}
