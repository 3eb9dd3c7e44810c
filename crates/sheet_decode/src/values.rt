// Enums: a byte, the case's position, then its fields.
ghost use Rattle.codec.specs.Codec.{◌▹◌};
ghost use Rattle.number.specs.Number.{f32};
ghost use Rattle.ast.specs.Tree.{named, cubic_bezier};
ghost use Rattle.sheet.specs.Sheet.{word, flag, span_form, value_form, easing_form, loop_form, damping_form, time_form, pattern_form};
ghost use Rattle.ast.specs.Means.{value_view, easing_view, loop_view, damping_view, time_view, pattern_view};
ghost use Rattle.sheet_decode.specs.Means.{Reads};

use crate::fields::{Taken, skip_words, take_byte, take_field, take_flag, take_float, take_span};
use ast::{DampingMode, EasingSpec, LoopSpec, StaggerPatternSpec, ValueExpr};

// A scalar's float, or an array's count; its elements are passed.
pub fn take_value(s: &[u8], at: usize) -> Taken<ValueExpr>
    ensures { Reads value_form value_view s.now at result.v result.next }
{
    let k = take_byte(s, at, 2);
    if k.v == 0 {
        let x = take_float(s, k.next);
        return Taken {
            v: ValueExpr::Scalar(x.v),
            next: x.next,
        };
    }
    let c = take_field(s, k.next, 2);
    let count = c.v as usize;
    Taken {
        v: ValueExpr::Array(count),
        next: skip_words(s, c.next, count),
    }
}

// Whether it is written `Easing::`, and the name.
fn take_named(s: &[u8], at: usize, n: usize) -> Taken<EasingSpec>
    ensures { Reads (flag ▹ span_form n) (λ p. easing_view (named p.0 p.1)) s.now at result.v result.next }
{
    let p = take_flag(s, at);
    let w = take_span(s, p.next, n);
    Taken {
        v: EasingSpec::Named(p.v, w.v),
        next: w.next,
    }
}

fn take_bezier(s: &[u8], at: usize) -> Taken<EasingSpec>
    ensures { Reads (word ▹ word ▹ word ▹ word) (λ p. easing_view (cubic_bezier p.0 p.1.0 p.1.1.0 p.1.1.1)) s.now at result.v result.next }
{
    let x1 = take_float(s, at);
    let y1 = take_float(s, x1.next);
    let x2 = take_float(s, y1.next);
    let y2 = take_float(s, x2.next);
    Taken {
        v: EasingSpec::CubicBezier(x1.v, y1.v, x2.v, y2.v),
        next: y2.next,
    }
}

pub fn take_easing(s: &[u8], at: usize, n: usize) -> Taken<EasingSpec>
    ensures { Reads (easing_form n) easing_view s.now at result.v result.next }
{
    let k = take_byte(s, at, 6);
    let a = k.next;
    match k.v {
        0 => take_named(s, a, n),
        1 => take_bezier(s, a),
        2 => {
            let m = take_field(s, a, 4);
            Taken {
                v: EasingSpec::Steps(m.v),
                next: m.next,
            }
        }
        3 => {
            let m = take_field(s, a, 4);
            Taken {
                v: EasingSpec::Wiggle(m.v),
                next: m.next,
            }
        }
        4 => {
            let x = take_float(s, a);
            let m = take_field(s, x.next, 4);
            Taken {
                v: EasingSpec::Rough {
                    strength: x.v,
                    points: m.v,
                },
                next: m.next,
            }
        }
        _ => {
            let x = take_float(s, a);
            let y = take_float(s, x.next);
            Taken {
                v: EasingSpec::SlowMo {
                    linear_ratio: x.v,
                    power: y.v,
                },
                next: y.next,
            }
        }
    }
}

pub fn take_loop(s: &[u8], at: usize) -> Taken<LoopSpec>
    ensures { Reads loop_form loop_view s.now at result.v result.next }
{
    let k = take_byte(s, at, 5);
    let a = k.next;
    match k.v {
        0 => Taken {
            v: LoopSpec::Once,
            next: a,
        },
        1 => {
            let m = take_field(s, a, 4);
            Taken {
                v: LoopSpec::Times(m.v),
                next: m.next,
            }
        }
        2 => Taken {
            v: LoopSpec::Forever,
            next: a,
        },
        3 => Taken {
            v: LoopSpec::PingPong,
            next: a,
        },
        _ => {
            let m = take_field(s, a, 4);
            Taken {
                v: LoopSpec::PingPongTimes(m.v),
                next: m.next,
            }
        }
    }
}

pub fn take_damping(s: &[u8], at: usize) -> Taken<DampingMode>
    ensures { Reads damping_form damping_view s.now at result.v result.next }
{
    let k = take_byte(s, at, 3);
    let x = take_float(s, k.next);
    if k.v == 0 {
        return Taken {
            v: DampingMode::CriticallyDamped(x.v),
            next: x.next,
        };
    }
    let y = take_float(s, x.next);
    if k.v == 1 {
        return Taken {
            v: DampingMode::Overdamped(x.v, y.v),
            next: y.next,
        };
    }
    Taken {
        v: DampingMode::Underdamped(x.v, y.v),
        next: y.next,
    }
}

// Whether a time is a percent, and the time.
pub fn take_time(s: &[u8], at: usize) -> Taken<(bool, f32)>
    ensures { Reads time_form time_view s.now at result.v result.next }
{
    let k = take_byte(s, at, 2);
    let x = take_float(s, k.next);
    Taken {
        v: (k.v == 0, x.v),
        next: x.next,
    }
}

pub fn take_pattern(s: &[u8], at: usize) -> Taken<StaggerPatternSpec>
    ensures { Reads pattern_form pattern_view s.now at result.v result.next }
{
    let k = take_byte(s, at, 4);
    let a = k.next;
    match k.v {
        0 => {
            let x = take_field(s, a, 4);
            let y = take_field(s, x.next, 4);
            let o = take_byte(s, y.next, 9);
            Taken {
                v: StaggerPatternSpec::Grid {
                    cols: x.v,
                    rows: y.v,
                    origin: o.v,
                },
                next: o.next,
            }
        }
        1 => {
            let x = take_field(s, a, 4);
            let y = take_float(s, x.next);
            let z = take_float(s, y.next);
            Taken {
                v: StaggerPatternSpec::Random {
                    seed: x.v,
                    min: y.v,
                    max: z.v,
                },
                next: z.next,
            }
        }
        2 => Taken {
            v: StaggerPatternSpec::CenterOut,
            next: a,
        },
        _ => Taken {
            v: StaggerPatternSpec::EdgesIn,
            next: a,
        },
    }
}

// A start and an end.
pub fn take_range(s: &[u8], at: usize) -> Taken<(f32, f32)>
    ensures { Reads (word ▹ word) (λ p. (f32 p.0, f32 p.1)) s.now at result.v result.next }
{
    let start = take_float(s, at);
    let end = take_float(s, start.next);
    Taken {
        v: (start.v, end.v),
        next: end.next,
    }
}
