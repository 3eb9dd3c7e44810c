// parser.rs, parse_keyframes and parse_keyframe_time: a track, whose frames are written into the sheet as they are read.
// The functions are for our own crates: each requires a cursor that stands in a text of at most 16,384 bytes, and a place that leaves
// room for every sum.
#![tactic(auto)]

ghost use Rattle.std.specs.Prelude.{◌≡◌, ◌&&◌, List, ℕ, ◌+◌, ◌<◌, ◌^◌};
ghost use Rattle.number.specs.Rounded.{time_rounded};
ghost use Rattle.token.specs.Means.{Known, written_in};
ghost use Rattle.sheet_encode.specs.Means.{PlainEntry};
ghost use Rattle.grammar.specs.Grammar.{parse_keyframe_time, track_loop, track_frame, track_step, parse_keyframes};
ghost use Rattle.read_cursor.specs.Means.{Ready, Took};
ghost use Rattle.read_arrays.specs.Means.{Room};
ghost use Rattle.read_node.specs.Means.{LeafMeans};
ghost use Rattle.read_keyframes.specs.Means.{Inner, percent_sign, key_of, Stores, TimeMeans, key_mark, EasingMeans, ValuePut, EntryPut, EntryMeans, separator, StepMeans, Standing, TrackMeans, BlockMeans};

use ast::{EasingSpec, KeyframeEntry, LoopSpec};
use error::Refusal;
use number::Stored;
use read_arrays::HeldRead;
use read_cursor::{Cursor, Eaten, MarkRead, NumberRead, WordRead};
use read_node::NodeRead;
use read_values::{EasingRead, LoopRead};
use token::Number;

// Whether a time is a percent, the time that is stored, and the cursor.
#[derive(Clone, Copy)]
pub enum TimeRead {
    Is(bool, f32, Cursor),
    Refused(Refusal, usize),
}

#[derive(Clone, Copy)]
pub enum EasingIf {
    Is(Option<EasingSpec>, Cursor),
    Refused(Refusal, usize),
}

// An entry, the place behind its array's bytes, and the cursor. An array stands in the sheet as soon as it is read.
#[derive(Clone, Copy)]
pub enum EntryRead {
    Is(KeyframeEntry, usize, Cursor),
    Refused(Refusal, usize),
}

// The track so far: how many frames, the place behind the last one's bytes, the loop mode, and the cursor.
#[derive(Clone, Copy)]
pub struct Track {
    pub frames: usize,
    pub end: usize,
    pub loop_mode: Option<LoopSpec>,
    pub next: Cursor,
}

// The track behind an item, which goes on or ends.
#[derive(Clone, Copy)]
pub enum TrackNext {
    More(Track),
    Done(Track),
    Refused(Refusal, usize),
}

#[derive(Clone, Copy)]
pub enum TrackRead {
    Is(Track),
    Refused(Refusal, usize),
}

// ---- a key's time

// Takes the `%` of a percent. A number with a point is none.
fn percent_sign(text: &[u8], c: Cursor, point: bool) -> Eaten
    requires { Ready text.now c }
    ensures { Took 0 text.now c result.next (percent_sign point) result.taken }
{
    if point {
        return Eaten {
            taken: false,
            next: c,
        };
    }
    read_cursor::eat(text, c, b'%')
}

// Whether both hold: a percent with an `s` is refused.
fn all(a: bool, b: bool) -> bool
    ensures { result ≡ (a && b) }
{
    if a {
        return b;
    }
    false
}

// The time that is stored for a key, and whether it was rounded.
fn time_of(text: &[u8], percent: bool, negative: bool, n: Number) -> Stored
    requires { Known text.now n }
    ensures value { Stores (key_of percent negative (written_in text.now n)) percent result.value }
    ensures rounded { result.rounded ≡ time_rounded (key_of percent negative (written_in text.now n)) }
{
    if percent {
        return token::percent_of(text, negative, n);
    }
    token::float_of(text, negative, n)
}

fn parse_keyframe_time(text: &[u8], c: Cursor) -> TimeRead
    requires { Ready text.now c }
    ensures { TimeMeans text.now c parse_keyframe_time result }
{
    match read_cursor::number(text, c) {
        NumberRead::Missing(p) => TimeRead::Refused(Refusal::Malformed, p),
        NumberRead::Is(negative, n, m) => {
            let sign = percent_sign(text, m, n.point);
            let next = sign.next;
            if all(sign.taken, n.suffix) {
                return TimeRead::Refused(Refusal::Malformed, read_cursor::place(next));
            }
            let x = time_of(text, sign.taken, negative, n);
            TimeRead::Is(sign.taken, x.value, read_cursor::count(next, x.rounded))
        }
    }
}

// ---- a frame

// A key and its `:`.
fn key_mark(text: &[u8], c: Cursor) -> TimeRead
    requires { Ready text.now c }
    ensures { TimeMeans text.now c key_mark result }
{
    match parse_keyframe_time(text, c) {
        TimeRead::Refused(r, p) => TimeRead::Refused(r, p),
        TimeRead::Is(percent, time, m) => match read_cursor::mark(text, m, b':') {
            MarkRead::Missing(p) => TimeRead::Refused(Refusal::Missing, p),
            MarkRead::Is(n) => TimeRead::Is(percent, time, n),
        },
    }
}

// An easing where a name follows.
fn keyframe_easing(text: &[u8], c: Cursor) -> EasingIf
    requires { Ready text.now c }
    ensures { EasingMeans text.now c result }
{
    if !read_cursor::sees_name(text, c) {
        return EasingIf::Is(None, c);
    }
    match read_values::parse_easing(text, c) {
        EasingRead::Refused(r, p) => EasingIf::Refused(r, p),
        EasingRead::Is(e, m) => EasingIf::Is(Some(e), m),
    }
}

// A frame's entry, by value. If its value is an array, that is written 5 bytes behind `out`, where the entry's time will stand.
fn keyframe_entry(text: &[u8], sheet: &mut [u8], c: Cursor, out: usize) -> EntryRead
    requires { Ready text.now c × Inner 2097152 text.now out }
    ensures { EntryMeans text.now sheet.old sheet.new c out result }
{
    match key_mark(text, c) {
        TimeRead::Refused(r, p) => EntryRead::Refused(r, p),
        TimeRead::Is(percent, time, m) => match read_arrays::read_value(text, sheet, m, out + 5) {
            HeldRead::Refused(r, p) => EntryRead::Refused(r, p),
            HeldRead::Is(value, end, n) => match keyframe_easing(text, n) {
                EasingIf::Refused(r, p) => EntryRead::Refused(r, p),
                EasingIf::Is(easing, u) => EntryRead::Is(
                    ast::entry_of(percent, time, value, easing),
                    end,
                    u,
                ),
            },
        },
    }
}

// Writes an entry's value, if it is a scalar; an array is written already, and ends at `end`.
fn put_value(sheet: &mut [u8], at: usize, end: usize, e: KeyframeEntry) -> usize
    requires { (at < 2 ^ 32) × PlainEntry e }
    ensures { ValuePut e.array sheet.old sheet.new at end e.value result }
{
    if e.array {
        return end;
    }
    sheet_encode::put_scalar(sheet, at, e.value)
}

// Writes an entry: its time, its value and its easing.
fn put_entry(sheet: &mut [u8], out: usize, end: usize, e: KeyframeEntry) -> usize
    requires { (out + 10 < 2 ^ 31) × (end < 2 ^ 31) × PlainEntry e }
    ensures { EntryPut sheet.old sheet.new out end e result }
{
    let easing = e.easing;
    let value_at = sheet_encode::put_time(sheet, out, e.percent, e.time);
    let easing_at = put_value(sheet, value_at, end, e);
    sheet_encode::put_opt_easing(sheet, easing_at, easing)
}

// ---- a track

// Takes a `,` or a `;`.
fn separator(text: &[u8], c: Cursor) -> Eaten
    requires { Ready text.now c }
    ensures { Took 0 text.now c result.next separator result.taken }
{
    if read_cursor::sees(c, b',') {
        return read_cursor::eat(text, c, b',');
    }
    read_cursor::eat(text, c, b';')
}

// `loop: ..`, and a `,` if there is one: the last mode wins.
fn track_loop(text: &[u8], t: Track) -> TrackNext
    requires { Ready text.now t.next }
    ensures { (b : List ℕ) → StepMeans text.now b b t track_loop result }
{
    let c = t.next;
    let behind = read_cursor::advance(text, c);
    match read_cursor::mark(text, behind, b':') {
        MarkRead::Missing(p) => TrackNext::Refused(Refusal::Missing, p),
        MarkRead::Is(m) => match read_values::parse_loop_mode(text, m) {
            LoopRead::Refused(r, p) => TrackNext::Refused(r, p),
            LoopRead::Is(mode, n) => {
                let ate = read_cursor::eat(text, n, b',');
                let next = ate.next;
                TrackNext::More(Track {
                    frames: t.frames,
                    end: t.end,
                    loop_mode: Some(mode),
                    next,
                })
            }
        },
    }
}

// A frame, written behind those before it. The last of the track has no `,` or `;` behind it.
fn track_frame(text: &[u8], sheet: &mut [u8], t: Track) -> TrackNext
    requires { Standing text.now t }
    ensures { StepMeans text.now sheet.old sheet.new t track_frame result }
{
    let c = t.next;
    let loop_mode = t.loop_mode;
    match keyframe_entry(text, sheet, c, t.end) {
        EntryRead::Refused(r, p) => TrackNext::Refused(r, p),
        EntryRead::Is(entry, behind, m) => {
            let end = put_entry(sheet, t.end, behind, entry);
            let ate = separator(text, m);
            let next = ate.next;
            let longer = Track {
                frames: t.frames + 1,
                end,
                loop_mode,
                next,
            };
            if ate.taken {
                return TrackNext::More(longer);
            }
            TrackNext::Done(longer)
        }
    }
}

// An item of a track: the loop mode or a frame; or its end.
fn track_step(text: &[u8], sheet: &mut [u8], t: Track) -> TrackNext
    requires { Standing text.now t }
    ensures { StepMeans text.now sheet.old sheet.new t track_step result }
{
    let c = t.next;
    if read_cursor::ends(c) {
        return TrackNext::Done(t);
    }
    if read_cursor::sees_word(text, c, b"loop") {
        return track_loop(text, t);
    }
    track_frame(text, sheet, t)
}

// The items of a track, its frames written from `out` on.
fn track_items(text: &[u8], sheet: &mut [u8], c: Cursor, out: usize) -> TrackRead
    requires { Ready text.now c × Inner 16 text.now out }
    ensures { TrackMeans text.now sheet.old sheet.new c out result }
{
    let mut t = Track {
        frames: 0,
        end: out,
        loop_mode: None,
        next: c,
    };
    loop {
        match track_step(text, sheet, t) {
            TrackNext::Refused(r, p) => return TrackRead::Refused(r, p),
            TrackNext::Done(u) => return TrackRead::Is(u),
            TrackNext::More(u) => {
                t = u;
            }
        }
    }
}

// A track behind its `{`: the count of its frames, the frames, the loop mode.
fn track_value(text: &[u8], sheet: &mut [u8], c: Cursor, out: usize) -> NodeRead
    requires { Ready text.now c × Inner 8 text.now out }
    ensures { BlockMeans text.now sheet.old sheet.new c out result }
{
    match track_items(text, sheet, c, out + 2) {
        TrackRead::Refused(r, p) => NodeRead::Refused(r, p),
        TrackRead::Is(t) => {
            let mode = t.loop_mode;
            let next = t.next;
            sheet_encode::patch_count(sheet, out, t.frames);
            let end = sheet_encode::put_opt_loop(sheet, t.end, mode);
            NodeRead::Is(end, read_cursor::leave_group(text, next, b'}'))
        }
    }
}

pub fn parse_keyframes(text: &[u8], sheet: &mut [u8], c: Cursor, out: usize) -> NodeRead
    requires { Ready text.now c × Room text.now out }
    ensures { LeafMeans text.now sheet.old sheet.new c out parse_keyframes result }
{
    match read_cursor::word(text, c) {
        WordRead::Missing(p) => NodeRead::Refused(Refusal::Missing, p),
        WordRead::Is(target, m) => match read_cursor::mark(text, m, b'{') {
            MarkRead::Missing(p) => NodeRead::Refused(Refusal::Missing, p),
            MarkRead::Is(n) => {
                let track_at = sheet_encode::put_span(sheet, out, target);
                track_value(text, sheet, n, track_at)
            }
        },
    }
}
