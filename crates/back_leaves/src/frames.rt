// A track: its frames, and its loop mode.
ghost use Rattle.std.specs.Prelude.{length};
ghost use Rattle.codec.specs.Codec.{◌▹◌, each, many, opt};
ghost use Rattle.sheet.specs.Sheet.{time_form, easing_form, entry_form, loop_form};
ghost use Rattle.fresh.specs.Meaning.{option_sense};
ghost use Rattle.fresh.specs.Fresh as fresh;
ghost use Rattle.back_copying.specs.Means.{Puts, CopiesTo};
ghost use Rattle.ast.specs.Tree.{percent};
ghost use Rattle.back_leaves.specs.Means.{frame_of, frames_of, comma_frames, loop_by};

use back_copying::fields::put_field;
use back_copying::values::{copy_f32, copy_value};
use back_easings::easings::{copy_easing, copy_loop, put_comma};
use back_spelling::PieceWriter;
use sheet_decode::fields::{take_byte, take_field};

// A percent by its bits: its sign, if it has one, its number and `%`.
fn put_percentage(writer: &mut PieceWriter, bits: u32)
    ensures { Puts (fresh.time (percent bits)) writer.old writer.new }
{
    if bits < 2147483648 {
        writer.put_percent(bits);
        return writer.put_mark(b'%');
    }
    writer.put_mark(b'-');
    writer.put_percent(bits - 2147483648);
    writer.put_mark(b'%');
}

fn copy_time(s: &[u8], at: usize, writer: &mut PieceWriter) -> usize
    ensures { CopiesTo time_form fresh.time s.now at writer.old writer.new result }
{
    let k = take_byte(s, at, 2);
    if k.v == 0 {
        let x = take_field(s, k.next, 4);
        put_percentage(writer, x.v);
        return x.next;
    }
    copy_f32(s, k.next, writer)
}

fn copy_frame_easing(text: &[u8], s: &[u8], at: usize, writer: &mut PieceWriter) -> usize
    ensures { CopiesTo (opt (easing_form (length text.now))) (λ o. fresh.frame_easing (option_sense text.now o)) s.now at writer.old writer.new result }
{
    let k = take_byte(s, at, 2);
    if k.v == 0 {
        return k.next;
    }
    copy_easing(text, s, k.next, writer)
}

fn copy_frame(text: &[u8], s: &[u8], at: usize, writer: &mut PieceWriter) -> usize
    ensures { CopiesTo (entry_form (length text.now)) (λ x. fresh.frame (frame_of text.now x)) s.now at writer.old writer.new result }
{
    let at = copy_time(s, at, writer);
    writer.put_mark(b':');
    let at = copy_value(s, at, writer);
    copy_frame_easing(text, s, at, writer)
}

// A track's loop mode, with a `,` before it behind a frame.
fn copy_track_loop(s: &[u8], at: usize, writer: &mut PieceWriter, first: bool) -> usize
    ensures { CopiesTo (opt loop_form) (loop_by first) s.now at writer.old writer.new result }
{
    let k = take_byte(s, at, 2);
    if k.v == 0 {
        return k.next;
    }
    put_comma(writer, first);
    put_field(writer, b"loop");
    copy_loop(s, k.next, writer)
}

// So many frames, a `,` before each.
fn copy_more_frames(text: &[u8], s: &[u8], at: usize, n: usize, writer: &mut PieceWriter) -> usize
    ensures { CopiesTo (each (entry_form (length text.now)) n) (λ xs. comma_frames (frames_of text.now xs)) s.now at writer.old writer.new result }
{
    let mut next = at;
    for _k in 0..n {
        writer.put_mark(b',');
        next = copy_frame(text, s, next, writer);
    }
    next
}

// The frames and the loop mode, behind the target.
pub fn copy_track(text: &[u8], s: &[u8], at: usize, writer: &mut PieceWriter) -> usize
    ensures { CopiesTo (many (entry_form (length text.now)) ▹ opt loop_form) (λ x. fresh.track (frames_of text.now x.0) x.1) s.now at writer.old writer.new result }
{
    let count = take_field(s, at, 2);
    let n = count.v as usize;
    if n == 0 {
        return copy_track_loop(s, count.next, writer, true);
    }
    let at = copy_frame(text, s, count.next, writer);
    let at = copy_more_frames(text, s, at, n - 1, writer);
    copy_track_loop(s, at, writer, false)
}
