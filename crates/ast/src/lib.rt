// ast.rs: the types of the tree, by value, one record at a time. Spans for diagnostics are left out.
#![tactic(auto)]

ghost use Rattle.std.specs.Prelude.{◌≡◌};
ghost use Rattle.ast.specs.Means.{count_of, entry_of};

// A name or a string: its place in the text, quotes left off.
#[derive(Clone, Copy)]
pub struct Span {
    pub start: usize,
    pub size: usize,
}

// An enum whose cases hold nothing is the position of the case.
pub type GroupMode = u8;

pub type GridOriginSpec = u8;

pub type ColorSpace = u8;

pub type WaveformKind = u8;

pub type SpringPreset = u8;

pub type IntegratorSpec = u8;

// An array is its count: its elements are walked in the sheet.
#[derive(Clone, Copy)]
pub enum ValueExpr {
    Scalar(f32),
    Array(usize),
}

#[derive(Clone, Copy)]
pub enum EasingSpec {
    // Whether it is written `Easing::`, and the name.
    Named(bool, Span),
    CubicBezier(f32, f32, f32, f32),
    Steps(u32),
    Wiggle(u32),
    Rough { strength: f32, points: u32 },
    SlowMo { linear_ratio: f32, power: f32 },
}

#[derive(Clone, Copy)]
pub enum LoopSpec {
    Once,
    Times(u32),
    Forever,
    PingPong,
    PingPongTimes(u32),
}

#[derive(Clone, Copy)]
pub enum DampingMode {
    CriticallyDamped(f32),
    Overdamped(f32, f32),
    Underdamped(f32, f32),
}

#[derive(Clone, Copy)]
pub enum StaggerPatternSpec {
    Grid {
        cols: u32,
        rows: u32,
        origin: GridOriginSpec,
    },
    Random {
        seed: u32,
        min: f32,
        max: f32,
    },
    CenterOut,
    EdgesIn,
}

// ---- the nodes, without the nodes in them

#[derive(Clone, Copy)]
pub struct TweenSpec {
    pub target: Span,
    pub from: ValueExpr,
    pub to: ValueExpr,
    pub duration: f32,
    pub easing: Option<EasingSpec>,
    pub delay: Option<f32>,
    pub time_scale: Option<f32>,
    pub loop_mode: Option<LoopSpec>,
    pub snap: Option<f32>,
    pub round: Option<u32>,
    pub reverse: bool,
}

#[derive(Clone, Copy)]
pub struct SpringSpec {
    pub target: Span,
    pub from: ValueExpr,
    pub to: ValueExpr,
    pub preset: Option<u8>,
    pub stiffness: Option<f32>,
    pub damping: Option<f32>,
    pub mass: Option<f32>,
    pub velocity: Option<ValueExpr>,
    pub epsilon: Option<f32>,
    pub integrator: Option<u8>,
    pub damping_mode: Option<DampingMode>,
}

// One keyframe entry, with the cases of its time and its value as fields: `KeyframeTime` is whether it is a percent, and the f32;
// `ValueExpr` is whether it is an array, a scalar's f32 (0.0 for an array), and the number of components.
#[derive(Clone, Copy)]
pub struct KeyframeEntry {
    pub percent: bool,
    pub time: f32,
    pub array: bool,
    pub value: f32,
    pub count: usize,
    pub easing: Option<EasingSpec>,
}

// The frames are their count: they are walked in the sheet.
#[derive(Clone, Copy)]
pub struct KeyframeSpec {
    pub target: Span,
    pub frames: usize,
    pub loop_mode: Option<LoopSpec>,
}

// A stagger, and how many nodes it holds.
#[derive(Clone, Copy)]
pub struct StaggerSpec {
    pub pattern: Option<StaggerPatternSpec>,
    pub delay: Option<f32>,
    pub nodes: usize,
}

// A group, and how many nodes it holds.
#[derive(Clone, Copy)]
pub struct GroupSpec {
    pub mode: GroupMode,
    pub nodes: usize,
}

#[derive(Clone, Copy)]
pub struct PathSpec {
    pub target: Span,
    pub svg: Span,
    pub duration: f32,
    pub easing: Option<EasingSpec>,
    pub auto_rotate: Option<bool>,
    pub offset: Option<(f32, f32)>,
    pub loop_mode: Option<LoopSpec>,
}

#[derive(Clone, Copy)]
pub struct MorphSpec {
    pub from: Span,
    pub to: Span,
    pub samples: u32,
    pub duration: f32,
    pub easing: Option<EasingSpec>,
}

#[derive(Clone, Copy)]
pub struct DrawSpec {
    pub svg: Span,
    pub duration: f32,
    pub easing: Option<EasingSpec>,
}

#[derive(Clone, Copy)]
pub struct ColorSpec {
    pub target: Span,
    pub from: Span,
    pub to: Span,
    pub duration: f32,
    pub space: ColorSpace,
    pub easing: Option<EasingSpec>,
}

#[derive(Clone, Copy)]
pub struct WaveformSpec {
    pub kind: WaveformKind,
    pub frequency: Option<f32>,
    pub amplitude: Option<f32>,
    pub phase: Option<f32>,
    pub duty_cycle: Option<f32>,
    pub seed: Option<u32>,
    pub smoothness: Option<f32>,
    pub duration: Option<f32>,
}

#[derive(Clone, Copy)]
pub struct PresetCall {
    pub name: Span,
    pub duration: Option<f32>,
    pub easing: Option<EasingSpec>,
}

#[derive(Clone, Copy)]
pub struct AtSpec {
    pub value: f32,
    pub relative: bool,
}

// The number of scalar components: 1 for a scalar, N for an array.
pub fn component_count(value: ValueExpr) -> usize
    ensures { result ≡ count_of value }
{
    match value {
        ValueExpr::Scalar(_) => 1,
        ValueExpr::Array(count) => count,
    }
}

// The entry that holds a time, a value and an easing.
pub fn entry_of(
    percent: bool,
    time: f32,
    value: ValueExpr,
    easing: Option<EasingSpec>,
) -> KeyframeEntry
    ensures { result ≡ entry_of percent time value easing }
{
    match value {
        ValueExpr::Scalar(x) => KeyframeEntry {
            percent,
            time,
            array: false,
            value: x,
            count: 1,
            easing,
        },
        ValueExpr::Array(count) => KeyframeEntry {
            percent,
            time,
            array: true,
            value: 0.0,
            count,
            easing,
        },
    }
}
