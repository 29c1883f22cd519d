//! Which calls a word names.

use crate::fits::{Mesh, fitted};
use crate::grids::{forced, grid_alone, mates, ranks, rough_wedges, wedges};
use crate::heaps::heap_calls;
use crate::pools::{Work, filled, made, refined};
use crate::reading::{Kernel, kernels, plain_text, raw_text, readings, text_alone};
use crate::scripts::{Edit, edited, generated, lines_read};
use std::alloc::Global;

/// Calls that are timed all together.
#[derive(Clone, Copy)]
pub enum Call {
    Mates,
    Forced,
    Heap,
    RoughGrid,
    Wedges,
    Ranks,
    Edits(Edit),
    GenGrid,
    ReadLine,
    PoolNew,
    PoolWork(Work),
    PoolWalk,
    PoolCarryOut,
    RawText,
    Raw,
    PlainText,
    Plain,
    Kernels(Kernel),
    Fitted(Mesh),
}

/// Each word with its calls.
const CALLS: [(&str, Call); 34] = [
    ("mates", Call::Mates),
    ("forced", Call::Forced),
    ("heap", Call::Heap),
    ("rough_grid", Call::RoughGrid),
    ("wedges", Call::Wedges),
    ("ranks", Call::Ranks),
    ("set", Call::Edits(Edit::Set)),
    ("set_point", Call::Edits(Edit::SetPoint)),
    ("raise_row", Call::Edits(Edit::RaiseRow)),
    ("raise_whole", Call::Edits(Edit::RaiseWhole)),
    ("gen_grid", Call::GenGrid),
    ("read_line", Call::ReadLine),
    ("pool_new", Call::PoolNew),
    ("pool_split", Call::PoolWork(Work::Fill)),
    ("pool_merge", Call::PoolWork(Work::FillAndEmpty)),
    ("pool_plan", Call::PoolWork(Work::FillAndPlan)),
    ("pool_walk", Call::PoolWalk),
    ("pool_carry_out", Call::PoolCarryOut),
    ("raw_text", Call::RawText),
    ("raw", Call::Raw),
    ("plain_text", Call::PlainText),
    ("plain", Call::Plain),
    ("samples_alone", Call::Kernels(Kernel::None)),
    ("be16", Call::Kernels(Kernel::Words)),
    ("be16_plain", Call::Kernels(Kernel::WordsPlain)),
    ("first_above", Call::Kernels(Kernel::FirstAbove)),
    ("first_above_plain", Call::Kernels(Kernel::FirstAbovePlain)),
    ("range", Call::Kernels(Kernel::Range)),
    ("range_plain", Call::Kernels(Kernel::RangePlain)),
    ("fit_none", Call::Fitted(Mesh::None)),
    ("fit_frame", Call::Fitted(Mesh::Frame)),
    ("fit_nothing", Call::Fitted(Mesh::Nothing)),
    ("fit_points", Call::Fitted(Mesh::Points)),
    ("fit_own", Call::Fitted(Mesh::Own)),
];

/// The calls of a word, if it has some.
pub fn call_of(word: &str) -> Option<Call> {
    for (name, call) in &CALLS {
        if *name == word {
            return Some(*call);
        }
    }
    None
}

impl Call {
    /// Makes the calls. Counts them, and adds up what they answer.
    pub fn made(self, alloc: Global) -> (u32, u32) {
        match self {
            Call::Mates => mates(),
            Call::Forced => forced(alloc),
            Call::Heap => heap_calls(alloc),
            Call::RoughGrid => grid_alone(alloc),
            Call::Wedges => wedges(alloc),
            Call::Ranks => ranks(alloc),
            Call::Edits(edit) => edited(rough_wedges(alloc), edit),
            Call::GenGrid => generated(alloc),
            Call::ReadLine => lines_read(),
            Call::PoolNew => made(alloc),
            Call::PoolWork(work) => filled(alloc, work),
            Call::PoolWalk => refined(alloc, false),
            Call::PoolCarryOut => refined(alloc, true),
            Call::RawText => text_alone(raw_text(alloc)),
            Call::Raw => readings(alloc, raw_text(alloc)),
            Call::PlainText => text_alone(plain_text(alloc)),
            Call::Plain => readings(alloc, plain_text(alloc)),
            Call::Kernels(kernel) => kernels(alloc, kernel),
            Call::Fitted(mesh) => fitted(alloc, mesh),
        }
    }
}
