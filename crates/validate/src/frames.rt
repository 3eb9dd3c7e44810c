// A track's rules: enough frames, no time twice, easings of known names. For our own crates: a track's frames are no more than the times that
// are kept for them, and those of a long one are in bytes of at most a sheet's limit.
ghost use Rattle.std.specs.Prelude.{ℕ, ◌≤◌, ◌≡◌, length};
ghost use Rattle.number.specs.Time.{near};
ghost use Rattle.validate.specs.Means.{InLimit, HeadStands, FramesTell, TrackTells};

use ast::KeyframeEntry;
use error::Refusal;
use node_rules::faults::validate_easing;
use sheet_decode::fields::{lost, take_field, take_span};
use sheet_decode::nodes::{skip_entries, take_entry};
use sheet_decode::optional::take_opt;
use sheet_decode::values::take_loop;

// A track's first fault, and the place behind it.
#[derive(Clone, Copy)]
pub struct TrackCheck {
    pub fault: Result<(), Refusal>,
    pub next: usize,
}

// The first fault of some frames, and where and how many of them are left to be passed.
#[derive(Clone, Copy)]
pub struct FramesCheck {
    pub fault: Result<(), Refusal>,
    pub at: usize,
    pub left: usize,
}

// How many frames a track has, and where they begin.
#[derive(Clone, Copy)]
pub struct TrackHead {
    pub count: usize,
    pub first: usize,
}

// Whether an entry's time is a duplicate of an earlier one. Percent and seconds share one scale.
fn is_duplicate(earlier: f32, entry: KeyframeEntry) -> bool
    ensures { result ≡ near earlier entry.time }
{
    number::duplicate(earlier, entry.time)
}

// The first fault of so many frames from a place on. Each frame's time is tried against those of the frames before it, which are kept
// in `times`; the search ends at the first pair of duplicates. A frame's easing comes after its time. The frames from the faulty one on
// are left.
fn validate_frames(
    text: &[u8],
    s: &[u8],
    first: usize,
    count: usize,
    times: &mut [f32],
) -> FramesCheck
    requires { count ≤ length times.old }
    ensures { FramesTell text.now s.now first count result }
{
    let n = text.len();
    let mut fault = Ok(());
    let mut i: usize = 0;
    let mut at = first;
    'frames: while i < count {
        let frame = take_entry(s, at, n);
        let entry = frame.v;
        for j in 0..i {
            if is_duplicate(times[j], entry) {
                fault = Err(Refusal::DuplicateTime);
                break 'frames;
            }
        }
        fault = validate_easing(text, entry.easing);
        if fault.is_err() {
            break 'frames;
        }
        times[i] = entry.time;
        at = frame.next;
        i += 1;
    }
    FramesCheck {
        fault,
        at,
        left: count - i,
    }
}

// The frames of a track of at most 64.
pub fn short_track(text: &[u8], s: &[u8], first: usize, count: usize) -> FramesCheck
    requires { count ≤ 64 }
    ensures { FramesTell text.now s.now first count result }
{
    let mut times: [f32; 64] = [0.0; 64];
    validate_frames(text, s, first, count, &mut times)
}

// The frames of a longer track. A frame has 9 bytes or more: no sheet holds more than 7,281.
pub fn long_track(text: &[u8], s: &[u8], first: usize, count: usize) -> FramesCheck
    requires { InLimit s.now }
    ensures { FramesTell text.now s.now first count result }
{
    if 7281 < count {
        return FramesCheck {
            fault: Ok(()),
            at: lost(s),
            left: 0,
        };
    }
    let mut times: [f32; 7281] = [0.0; 7281];
    validate_frames(text, s, first, count, &mut times)
}

// The head of the track whose fields stand at a place: its target and its count of frames.
pub fn take_head(s: &[u8], at: usize, n: usize) -> TrackHead
    ensures { HeadStands n s.now at result.count result.first }
{
    let target = take_span(s, at, n);
    let count = take_field(s, target.next, 2);
    TrackHead {
        count: count.v as usize,
        first: count.next,
    }
}

// A track of so many frames, from what is told of them: that there are fewer than 2 comes first. Its loop mode stands behind them.
pub fn validate_keyframes(text: &[u8], s: &[u8], count: usize, frames: FramesCheck) -> TrackCheck
    ensures { (at first : ℕ) → HeadStands (length text.now) s.now at count first → FramesTell text.now s.now first count frames → TrackTells text.now s.now at result }
{
    let end = skip_entries(s, frames.at, text.len(), frames.left);
    let next = take_opt(s, end, |at| take_loop(s, at)).next;
    if count < 2 {
        return TrackCheck {
            fault: Err(Refusal::TooFewFrames),
            next,
        };
    }
    TrackCheck {
        fault: frames.fault,
        next,
    }
}
