// A node that holds none: its fields behind its kind and start, written behind its word, and its `;`.
ghost use Rattle.std.specs.Prelude.{ℕ, length, List};
ghost use Rattle.codec.specs.Codec.{◌▹◌, opt};
ghost use Rattle.std.proofs.Math.Option.{none};
ghost use Rattle.ast.specs.Tree as Tree;
ghost use Rattle.ast.specs.Tree.{tween, spring, keyframes, path, morph, draw, color, waveform, preset, label};
ghost use Rattle.sheet.specs.Sheet.{word, easing_form, tween_form, spring_form, keyframes_form, path_form, morph_form, draw_form, color_form, waveform_form, preset_form, span_form, at_form};
ghost use Rattle.fresh.specs.Meaning.{option_sense};
ghost use Rattle.fresh.specs.Fresh as fresh;
ghost use Rattle.back_copying.specs.Means.{Puts, CopiesTo};
ghost use Rattle.back_leaves.specs.Means.{body, preset_fields};

use crate::frames::copy_track;
use back_copying::fields::{
    copy_f32_field, copy_offset, copy_opt, copy_opt_case, copy_opt_damping, copy_reverse,
    copy_samples, copy_space, put_choice, put_field,
};
use back_copying::values::{
    copy_f32, copy_name, copy_string, copy_truth, copy_u32, copy_value, put_f32,
};
use back_easings::easings::{copy_easing, copy_loop};
use back_easings::options::copy_opt_easing;
use back_spelling::PieceWriter;
use sheet_decode::fields::{take_byte, take_field, take_flag};

const PRESETS: [&str; 5] = ["gentle", "wobbly", "stiff", "slow", "snappy"];

const INTEGRATORS: [&str; 2] = ["semi_implicit_euler", "rk4"];

const WAVES: [&str; 4] = ["sine", "sawtooth", "square", "triangle"];

pub fn copy_tween(text: &[u8], s: &[u8], at: usize, writer: &mut PieceWriter) -> usize
    ensures { CopiesTo (tween_form (length text.now)) (λ d. body text.now (tween d)) s.now at writer.old writer.new result }
{
    let at = copy_name(text, s, at, writer);
    writer.put_mark(b':');
    let at = copy_value(s, at, writer);
    writer.put_pair(b'=', b'>');
    let at = copy_value(s, at, writer);
    let at = copy_f32_field(s, at, writer, b"duration");
    let at = copy_opt_easing(text, s, at, writer);
    let at = copy_opt(s, at, writer, b"delay", copy_f32);
    let at = copy_opt(s, at, writer, b"time_scale", copy_f32);
    let at = copy_opt(s, at, writer, b"loop", copy_loop);
    let at = copy_opt(s, at, writer, b"snap", copy_f32);
    let at = copy_opt(s, at, writer, b"round", copy_u32);
    let at = copy_reverse(s, at, writer);
    writer.put_mark(b';');
    at
}

pub fn copy_spring(text: &[u8], s: &[u8], at: usize, writer: &mut PieceWriter) -> usize
    ensures { CopiesTo (spring_form (length text.now)) (λ d. body text.now (spring d)) s.now at writer.old writer.new result }
{
    let at = copy_name(text, s, at, writer);
    writer.put_mark(b':');
    let at = copy_value(s, at, writer);
    writer.put_pair(b'=', b'>');
    let at = copy_value(s, at, writer);
    let at = copy_opt_case(s, at, writer, b"preset", &PRESETS);
    let at = copy_opt(s, at, writer, b"stiffness", copy_f32);
    let at = copy_opt(s, at, writer, b"damping", copy_f32);
    let at = copy_opt(s, at, writer, b"mass", copy_f32);
    let at = copy_opt(s, at, writer, b"velocity", copy_value);
    let at = copy_opt(s, at, writer, b"epsilon", copy_f32);
    let at = copy_opt_case(s, at, writer, b"integrator", &INTEGRATORS);
    let at = copy_opt_damping(s, at, writer);
    writer.put_mark(b';');
    at
}

pub fn copy_keyframes(text: &[u8], s: &[u8], at: usize, writer: &mut PieceWriter) -> usize
    ensures { CopiesTo (keyframes_form (length text.now)) (λ d. body text.now (keyframes d)) s.now at writer.old writer.new result }
{
    let at = copy_name(text, s, at, writer);
    writer.put_mark(b'{');
    let at = copy_track(text, s, at, writer);
    writer.put_mark(b'}');
    writer.put_mark(b';');
    at
}

pub fn copy_path(text: &[u8], s: &[u8], at: usize, writer: &mut PieceWriter) -> usize
    ensures { CopiesTo (path_form (length text.now)) (λ d. body text.now (path d)) s.now at writer.old writer.new result }
{
    let at = copy_name(text, s, at, writer);
    writer.put_word(b"along");
    let at = copy_string(text, s, at, writer);
    let at = copy_f32_field(s, at, writer, b"duration");
    let at = copy_opt_easing(text, s, at, writer);
    let at = copy_opt(s, at, writer, b"auto_rotate", copy_truth);
    let at = copy_opt(s, at, writer, b"offset", copy_offset);
    let at = copy_opt(s, at, writer, b"loop", copy_loop);
    writer.put_mark(b';');
    at
}

pub fn copy_morph(text: &[u8], s: &[u8], at: usize, writer: &mut PieceWriter) -> usize
    ensures { CopiesTo (morph_form (length text.now)) (λ d. body text.now (morph d)) s.now at writer.old writer.new result }
{
    let at = copy_string(text, s, at, writer);
    writer.put_pair(b'=', b'>');
    let at = copy_string(text, s, at, writer);
    let at = copy_samples(s, at, writer);
    let at = copy_f32_field(s, at, writer, b"duration");
    let at = copy_opt_easing(text, s, at, writer);
    writer.put_mark(b';');
    at
}

pub fn copy_draw(text: &[u8], s: &[u8], at: usize, writer: &mut PieceWriter) -> usize
    ensures { CopiesTo (draw_form (length text.now)) (λ d. body text.now (draw d)) s.now at writer.old writer.new result }
{
    let at = copy_string(text, s, at, writer);
    let at = copy_f32_field(s, at, writer, b"duration");
    let at = copy_opt_easing(text, s, at, writer);
    writer.put_mark(b';');
    at
}

pub fn copy_color(text: &[u8], s: &[u8], at: usize, writer: &mut PieceWriter) -> usize
    ensures { CopiesTo (color_form (length text.now)) (λ d. body text.now (color d)) s.now at writer.old writer.new result }
{
    let at = copy_name(text, s, at, writer);
    writer.put_mark(b':');
    let at = copy_string(text, s, at, writer);
    writer.put_pair(b'=', b'>');
    let at = copy_string(text, s, at, writer);
    let at = copy_f32_field(s, at, writer, b"duration");
    let at = copy_space(s, at, writer);
    let at = copy_opt_easing(text, s, at, writer);
    writer.put_mark(b';');
    at
}

// The word of a waveform's kind. No text has noise, the kind behind the last word: 02 (h).
fn put_wave(writer: &mut PieceWriter, kind: usize)
    ensures { Puts (fresh.choose fresh.wave_names kind) writer.old writer.new }
{
    if kind < 4 {
        return put_choice(writer, &WAVES, kind);
    }
    writer.put_name(b"");
}

pub fn copy_waveform(s: &[u8], at: usize, writer: &mut PieceWriter) -> usize
    ensures { (t : List ℕ) → CopiesTo waveform_form (λ d. body t (waveform d)) s.now at writer.old writer.new result }
{
    let kind = take_byte(s, at, 5);
    put_wave(writer, kind.v as usize);
    let at = copy_opt(s, kind.next, writer, b"frequency", copy_f32);
    let at = copy_opt(s, at, writer, b"amplitude", copy_f32);
    let at = copy_opt(s, at, writer, b"phase", copy_f32);
    let at = copy_opt(s, at, writer, b"duty_cycle", copy_f32);
    let at = copy_opt(s, at, writer, b"seed", copy_u32);
    let at = copy_opt(s, at, writer, b"smoothness", copy_f32);
    let at = copy_opt(s, at, writer, b"duration", copy_f32);
    writer.put_mark(b';');
    at
}

// An easing behind a preset's name alone: a `,` stands before it.
fn copy_only_easing(text: &[u8], s: &[u8], at: usize, writer: &mut PieceWriter) -> usize
    ensures { CopiesTo (opt (easing_form (length text.now))) (λ o. preset_fields none (option_sense text.now o)) s.now at writer.old writer.new result }
{
    let k = take_byte(s, at, 2);
    if k.v == 0 {
        return k.next;
    }
    writer.put_mark(b',');
    put_field(writer, b"easing");
    copy_easing(text, s, k.next, writer)
}

// A preset's fields stand behind a `,`.
fn copy_preset_fields(text: &[u8], s: &[u8], at: usize, writer: &mut PieceWriter) -> usize
    ensures { CopiesTo (opt word ▹ opt (easing_form (length text.now))) (λ x. preset_fields x.0 (option_sense text.now x.1)) s.now at writer.old writer.new result }
{
    let k = take_byte(s, at, 2);
    if k.v == 0 {
        return copy_only_easing(text, s, k.next, writer);
    }
    writer.put_mark(b',');
    let at = copy_f32_field(s, k.next, writer, b"duration");
    copy_opt_easing(text, s, at, writer)
}

pub fn copy_preset(text: &[u8], s: &[u8], at: usize, writer: &mut PieceWriter) -> usize
    ensures { CopiesTo (preset_form (length text.now)) (λ d. body text.now (preset d)) s.now at writer.old writer.new result }
{
    let at = copy_name(text, s, at, writer);
    let at = copy_preset_fields(text, s, at, writer);
    writer.put_mark(b';');
    at
}

pub fn copy_label(text: &[u8], s: &[u8], at: usize, writer: &mut PieceWriter) -> usize
    ensures { CopiesTo (span_form (length text.now)) (λ d. body text.now (label d)) s.now at writer.old writer.new result }
{
    let at = copy_string(text, s, at, writer);
    writer.put_mark(b';');
    at
}

// A relative `at` starts with `+`; an absolute one has no sign.
fn put_at(writer: &mut PieceWriter, bits: u32, relative: bool)
    ensures { Puts (fresh.at_value relative bits) writer.old writer.new }
{
    if relative {
        writer.put_mark(b'+');
        return put_f32(writer, bits);
    }
    writer.put_float(bits);
}

pub fn copy_at(s: &[u8], at: usize, writer: &mut PieceWriter) -> usize
    ensures { (t : List ℕ) → CopiesTo at_form (λ d. body t (Tree.at d)) s.now at writer.old writer.new result }
{
    let value = take_field(s, at, 4);
    let relative = take_flag(s, value.next);
    put_at(writer, value.v, relative.v);
    writer.put_mark(b';');
    relative.next
}
