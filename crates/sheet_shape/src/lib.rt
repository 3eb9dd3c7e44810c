// Whether bytes are a sheet, or a planed one, and how long its first part is.
#![tactic(auto)]

ghost use Rattle.sheet.specs.Sheet.{decode};
ghost use Rattle.planed.specs.Planes.{unplaned};
ghost use Rattle.sheet_shape.specs.Means.{ShapeMeans};

use crate::walk::pass_sheet;

pub mod walk;

// How many bytes of a sheet stay, and how many numbers are taken.
#[derive(Clone, Copy)]
pub struct Shape {
    pub rest: usize,
    pub numbers: usize,
}

pub fn sheet_shape(s: &[u8], n: usize) -> Option<Shape>
    ensures { ShapeMeans n (decode n s.now) result }
{
    if 65535 < s.len() {
        return None;
    }
    let t = pass_sheet(s, n, 4);
    if t.next != s.len() {
        return None;
    }
    Some(Shape {
        rest: s.len() - 4 * t.numbers,
        numbers: t.numbers,
    })
}

pub fn planed_shape(s: &[u8], n: usize) -> Option<Shape>
    ensures { ShapeMeans n (unplaned n s.now) result }
{
    if 65535 < s.len() {
        return None;
    }
    let t = pass_sheet(s, n, 0);
    if s.len() < t.next {
        return None;
    }
    let left = s.len() - t.next;
    if left / 4 != t.numbers {
        return None;
    }
    if left % 4 != 0 {
        return None;
    }
    Some(Shape {
        rest: t.next,
        numbers: t.numbers,
    })
}
