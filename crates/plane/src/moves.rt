// Bytes and numbers carried from a sheet to a planed one or back. For our own crates: what is carried stands in the bytes that are lent, and
// has room in the output.
ghost use Rattle.std.specs.Prelude.{◌≡◌, ◌+◌, ◌*◌, ◌≤◌, ◌<◌, length, true};
ghost use Rattle.plane.specs.Means.{Copies, Puts, Advances};
ghost use Rattle.plane.specs.CarryMeans.{FrameMoves, BeforeFrames, FramesMove, BeforeTrack, TrackMoves, BeforeRecord, RecordMoves, BeforeAll, AllMove, Carries, Carried};

use error::{LineAnswer, Refusal};
use sheet_decode::fields::take_field;
use sheet_decode::optional::take_opt;
use sheet_decode::values::take_loop;
use sheet_records::take_record;
use sheet_shape::walk::take_frame;

// So many bytes.
fn copy(src: &[u8], from: usize, out: &mut [u8], to: usize, k: usize)
    requires k_in_bounds { from + k ≤ length src.now }
    requires k_in_bounds_2 { to + k ≤ length out.old }
    ensures { Copies src.now from out.old to k out.new }
{
    for m in 0..k {
        out[to + m] = src[from + m];
    }
}

// The four bytes of a number: in the sheet one behind the other, in the planes as far apart as there are numbers.
fn put_number(src: &[u8], from: usize, step: usize, out: &mut [u8], to: usize, stride: usize)
    requires step_in_bounds { from + 3 * step < length src.now }
    requires stride_in_bounds { to + 3 * stride < length out.old }
    ensures { Puts src.now from step out.old to stride out.new }
{
    let first = src[from];
    let second = src[from + step];
    let third = src[from + 2 * step];
    let fourth = src[from + 3 * step];
    out[to] = first;
    out[to + stride] = second;
    out[to + 2 * stride] = third;
    out[to + 3 * stride] = fourth;
}

// Where a walk that carries stands: what of the source is carried, where the next byte goes, how many numbers are carried.
#[derive(Clone, Copy)]
pub struct Progress {
    pub done: usize,
    pub to: usize,
    pub numbers: usize,
}

// Where a walk that carries stands, and the place behind what it passed.
#[derive(Clone, Copy)]
pub struct Moved {
    pub progress: Progress,
    pub next: usize,
}

// What is carried: a sheet, or a planed one.
#[derive(Clone, Copy)]
pub struct Source<'a> {
    pub bytes: &'a [u8],
    pub text_len: usize,
    // How many bytes a number has between the bytes that stay: 4 in a sheet, 0 in a planed one.
    pub width: usize,
    // How many bytes stay. In a planed one the planes begin behind them.
    pub rest: usize,
    pub numbers: usize,
    ghost long: { rest + 4 * numbers ≤ length bytes.now },
    ghost width_bound: { width ≤ 4 },
    ghost width_value: { (width ≡ 4 → ⊥) → width ≡ 0 },
}

impl Source<'_> {
    // The k bytes before a number, then the number.
    pub fn advance(self, out: &mut [u8], progress: Progress, k: usize) -> Progress
        requires width_in_bounds { progress.done + k + self.width ≤ length self.bytes.now }
        requires k_in_bounds { progress.to + k + 4 ≤ length out.old + self.width }
        requires numbers_in_bounds { self.rest + 4 * self.numbers ≤ length out.old }
        requires number_left { progress.numbers < self.numbers }
        ensures advances { Advances self.entry.width self.entry.bytes.now progress.done out.old progress.to k self.entry.rest self.entry.numbers progress.numbers out.new }
        ensures done { result.done ≡ progress.done + k + self.entry.width }
        ensures to { result.to + self.entry.width ≡ progress.to + k + 4 }
        ensures numbers { result.numbers ≡ progress.numbers + 1 }
    {
        let Progress { done, to, numbers } = progress;
        copy(self.bytes, done, out, to, k);
        let plane = self.rest + numbers;
        if self.width == 4 {
            put_number(self.bytes, done + k, 1, out, plane, self.numbers);
        } else {
            put_number(self.bytes, plane, self.numbers, out, to + k, 1);
        }
        Progress {
            done: done + k + self.width,
            to: to + k + (4 - self.width),
            numbers: numbers + 1,
        }
    }

    // The numbers of the frame at a place, and the bytes before them.
    fn move_frame(self, out: &mut [u8], progress: Progress, at: usize, scalar: bool) -> Progress
        requires done_le_at { progress.done ≤ at }
        requires width_in_bounds { at + 2 + 2 * self.width ≤ length self.bytes.now }
        requires at_in_bounds { progress.to + at + 10 ≤ length out.old + progress.done + 2 * self.width }
        requires numbers_in_bounds { self.rest + 4 * self.numbers ≤ length out.old }
        requires number_left { progress.numbers < self.numbers }
        requires two_left { scalar ≡ true → progress.numbers + 1 < self.numbers }
        ensures { FrameMoves self.entry.width self.entry.text_len self.entry.bytes.now out.old out.new self.entry.rest self.entry.numbers progress.done progress.to progress.numbers at scalar result.done result.to result.numbers }
    {
        let behind_time = self.advance(out, progress, at + 1 - progress.done);
        if !scalar {
            return behind_time;
        }
        self.advance(out, behind_time, 1)
    }

    // The numbers of so many frames, and the bytes before them.
    fn move_frames(self, out: &mut [u8], progress: Progress, at: usize, count: usize) -> Moved
        requires { BeforeFrames self.width self.text_len self.bytes.now out.old self.rest self.numbers progress.done progress.to progress.numbers at count }
        ensures { FramesMove self.entry.width self.entry.text_len self.entry.bytes.now out.old out.new self.entry.rest self.entry.numbers progress.done progress.to progress.numbers at count result.progress.done result.progress.to result.progress.numbers result.next }
    {
        let mut progress = progress;
        let mut at = at;
        for _ in 0..count {
            let frame = take_frame(self.bytes, at, self.text_len, self.width);
            progress = self.move_frame(out, progress, at, frame.scalar);
            at = frame.next;
        }
        Moved { progress, next: at }
    }

    // Those of the track at a place.
    fn move_track(self, out: &mut [u8], progress: Progress, at: usize) -> Moved
        requires { BeforeTrack self.width self.text_len self.bytes.now out.old self.rest self.numbers progress.done progress.to progress.numbers at }
        ensures { TrackMoves self.entry.width self.entry.text_len self.entry.bytes.now out.old out.new self.entry.rest self.entry.numbers progress.done progress.to progress.numbers at result.progress.done result.progress.to result.progress.numbers result.next }
    {
        let count = take_field(self.bytes, at + 7, 2);
        let frames = self.move_frames(out, progress, at + 9, count.v as usize);
        let loop_mode = take_opt(self.bytes, frames.next, |a| take_loop(self.bytes, a));
        Moved {
            progress: frames.progress,
            next: loop_mode.next,
        }
    }

    // Those of the record at a place.
    fn move_record(self, out: &mut [u8], progress: Progress, at: usize) -> Moved
        requires { BeforeRecord self.width self.text_len self.bytes.now out.old self.rest self.numbers progress.done progress.to progress.numbers at }
        ensures { RecordMoves self.entry.width self.entry.text_len self.entry.bytes.now out.old out.new self.entry.rest self.entry.numbers progress.done progress.to progress.numbers at result.progress.done result.progress.to result.progress.numbers result.next }
    {
        if self.bytes[at] == 2 {
            return self.move_track(out, progress, at);
        }
        let record = take_record(self.bytes, at, self.text_len);
        Moved {
            progress,
            next: record.next,
        }
    }

    // All of a sheet, or of what stays of a planed one.
    pub fn move_all(self, out: &mut [u8])
        requires { BeforeAll self.width self.text_len self.bytes.now out.old (self.rest + self.width * self.numbers) self.rest self.numbers }
        ensures { AllMove self.entry.width self.entry.text_len self.entry.bytes.now out.old out.new (self.entry.rest + self.entry.width * self.entry.numbers) self.entry.rest self.entry.numbers }
    {
        let end = self.rest + self.width * self.numbers;
        let mut progress = Progress {
            done: 0,
            to: 0,
            numbers: 0,
        };
        let mut at: usize = 2;
        while at < end {
            let moved = self.move_record(out, progress, at);
            progress = moved.progress;
            at = moved.next;
        }
        copy(
            self.bytes,
            progress.done,
            out,
            progress.to,
            end - progress.done,
        );
    }

    // Carries a sheet to its planed form, or a planed one back, if there is room.
    pub(crate) fn carry(self, out: &mut [u8]) -> LineAnswer
        requires { Carries self.width self.text_len self.bytes.now (self.rest + self.width * self.numbers) self.rest self.numbers }
        ensures { Carried self.entry.width self.entry.text_len self.entry.bytes.now out.old (self.entry.rest + self.entry.width * self.entry.numbers) self.entry.rest self.entry.numbers result out.new }
    {
        if out.len() < self.bytes.len() {
            return LineAnswer::Refused {
                refusal: Refusal::OutputTooShort,
                place: 0,
            };
        }
        self.move_all(out);
        LineAnswer::Accepted {
            length: self.bytes.len(),
        }
    }
}
