// A leaf of any kind, by its place in the grammar's table of leaves.
ghost use Rattle.read_cursor.specs.Means.{Ready};
ghost use Rattle.read_arrays.specs.Means.{Room};
ghost use Rattle.read_blocks.specs.Means.{LeafAtMeans};

use read_cursor::Cursor;
use read_node::NodeRead;

pub fn parse_leaf(text: &[u8], sheet: &mut [u8], c: Cursor, out: usize, i: usize) -> NodeRead
    requires { Ready text.now c × Room text.now out }
    ensures { LeafAtMeans text.now sheet.old sheet.new c out i result }
{
    match i {
        0 => read_tween::parse_tween(text, sheet, c, out),
        1 => read_spring::parse_spring(text, sheet, c, out),
        2 => read_keyframes::parse_keyframes(text, sheet, c, out),
        3 => read_path::parse_path(text, sheet, c, out),
        4 => read_morph::parse_morph(text, sheet, c, out),
        5 => read_draw::parse_draw(text, sheet, c, out),
        6 => read_color::parse_color(text, sheet, c, out),
        7 => read_waveform::parse_waveform(text, sheet, c, out),
        8 => read_draw::parse_preset_call(text, sheet, c, out),
        9 => read_marks::parse_label(text, sheet, c, out),
        _ => read_marks::parse_at(text, sheet, c, out),
    }
}
