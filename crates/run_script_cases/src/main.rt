// Answers stored cases of the operations that read a script or a book (`run_stored::kinds` says how).
#![tactic(auto)]

mod book_cases;
mod feed_cases;
mod printing;
mod scratches;
mod script_cases;

use feed_cases::{NO_TOTALS, Totals};
use run_stored::cases::Case;
use run_stored::kinds::{Kind, answer_kinds};
use std::alloc::Global;
use std::io;
use std::io::Write;

// A line has room for two books of a byte more than the limit, and a name.
const LINE_BYTES: usize = 32786;

#[derive(Clone, Copy)]
enum ScriptKind {
    Script,
    Feed,
    Rounded,
    Book,
    Scratch,
    Number,
    Shelf,
}

impl Kind for ScriptKind {
    // Those of the kind `feed`.
    type Kept = Totals;

    fn all() -> &'static [ScriptKind] {
        &[
            ScriptKind::Script,
            ScriptKind::Feed,
            ScriptKind::Rounded,
            ScriptKind::Book,
            ScriptKind::Scratch,
            ScriptKind::Number,
            ScriptKind::Shelf,
        ]
    }

    fn name(self) -> &'static str {
        match self {
            ScriptKind::Script => "script",
            ScriptKind::Feed => "feed",
            ScriptKind::Rounded => "rounded",
            ScriptKind::Book => "book",
            ScriptKind::Scratch => "scratch",
            ScriptKind::Number => "number",
            ScriptKind::Shelf => "shelf",
        }
    }

    fn answer<W: Write>(
        self,
        alloc: Global,
        to: &mut W,
        case: &Case<'_>,
        totals: &mut Totals,
    ) -> io::Result<()> {
        match self {
            ScriptKind::Script | ScriptKind::Number => script_cases::answer(alloc, to, case),
            ScriptKind::Feed => feed_cases::answer(to, case, totals),
            ScriptKind::Rounded => script_cases::answer_rounded(to, case),
            ScriptKind::Book => book_cases::answer(alloc, to, case),
            ScriptKind::Scratch => scratches::answer(alloc, to, case),
            ScriptKind::Shelf => printing::answer(to, case),
        }
    }
}

fn main(rt: HostRuntime) -> io::Result<()> {
    let mut totals = NO_TOTALS;
    answer_kinds::<ScriptKind>(&rt, LINE_BYTES, &mut totals)
}
