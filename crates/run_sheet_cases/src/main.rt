// Answers stored cases of the operations on a sheet, a string or a wave (`run_stored::kinds` says how).
#![tactic(auto)]

mod back_cases;
mod check_cases;
mod convert_cases;
mod line_cases;
mod planes;
mod sheets;
mod waves;

use run_stored::cases::Case;
use run_stored::kinds::{Kind, answer_kinds};
use std::alloc::Global;
use std::io;
use std::io::Write;

// A line has room for a list, a text and a sheet, each of the last two with a byte more than the longest case.
const LINE_BYTES: usize = 81928;

#[derive(Clone, Copy)]
enum SheetKind {
    Sheet,
    Check,
    Color,
    Convert,
    Line,
    Back,
    Plane,
    Wave,
}

impl Kind for SheetKind {
    type Kept = ();

    fn all() -> &'static [SheetKind] {
        &[
            SheetKind::Sheet,
            SheetKind::Check,
            SheetKind::Color,
            SheetKind::Convert,
            SheetKind::Line,
            SheetKind::Back,
            SheetKind::Plane,
            SheetKind::Wave,
        ]
    }

    fn name(self) -> &'static str {
        match self {
            SheetKind::Sheet => "sheet",
            SheetKind::Check => "check",
            SheetKind::Color => "color",
            SheetKind::Convert => "convert",
            SheetKind::Line => "line",
            SheetKind::Back => "back",
            SheetKind::Plane => "plane",
            SheetKind::Wave => "wave",
        }
    }

    fn answer<W: Write>(
        self,
        alloc: Global,
        to: &mut W,
        case: &Case<'_>,
        _kept: &mut (),
    ) -> io::Result<()> {
        match self {
            SheetKind::Sheet => sheets::answer(to, case),
            SheetKind::Check => check_cases::answer(to, case),
            SheetKind::Color => check_cases::answer_color(to, case),
            SheetKind::Convert => convert_cases::answer(alloc, to, case),
            SheetKind::Line => line_cases::answer(to, case),
            SheetKind::Back => back_cases::answer(alloc, to, case),
            SheetKind::Plane => planes::answer(alloc, to, case),
            SheetKind::Wave => waves::answer(alloc, to, case),
        }
    }
}

fn main(rt: HostRuntime) -> io::Result<()> {
    answer_kinds::<SheetKind>(&rt, LINE_BYTES, &mut ())
}
