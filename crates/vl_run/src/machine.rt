//! What a run holds.

ghost use Rattle.std.specs.Prelude.{◌≡◌, IfOk, slice_set};
ghost use Rattle.vl_design.specs.Value as v;
ghost use Rattle.vl_eval.specs.Rooms.{sample_of};
ghost use Rattle.vl_run.specs.Machines.{sample_in};

use std::alloc::{AllocError, Global};
use vl_base::files::OpenFile;
use vl_base::items::Text;
use vl_design::words::Kept;
use vl_eval::room::Sample;
use vl_eval::update::Update;

/// The state of a run (IEEE 1364-2005, clause 11.3).
#[derive(Drop)]
pub struct Machine {
    /// The words of each signal.
    pub values: Vec<Kept>,
    /// The pending updates, in the order of their assignments.
    pub later: Vec<Update>,
    /// The bytes printed.
    pub printed: Vec<u8>,
    /// The open files.
    pub table: Vec<OpenFile>,
    /// The names of the snapshots asked for in this tick, in order.
    pub saves: Vec<Text>,
    /// The answer of the system function called last.
    pub answer: u32,
    /// The number of ticks begun.
    pub ticks: u64,
    /// A `$finish` was done.
    pub finished: bool,
}

impl Machine {
    /// What expressions read of it.
    pub fn sample(&self) -> Sample<'_>
        ensures { sample_of result ≡ sample_in self.now }
    {
        Sample {
            values: &self.values,
            time: self.ticks,
            answer: self.answer,
        }
    }
}

/// The words of a signal; none where there is no such signal.
pub fn words_at(alloc: Global, values: &[Kept], number: u32) -> Result<Kept, AllocError>
    ensures { IfOk result (λ k. k ≡ v.words_of values.now number) }
{
    match values.get(number as usize) {
        None => Kept::zeros(alloc, 0),
        Some(kept) => kept.copy(),
    }
}

/// Puts the words of a signal; nothing where there is no such signal.
pub fn put(values: &mut Vec<Kept>, number: u32, words: Kept)
    ensures { values.new.items ≡ slice_set values.old.items number words }
{
    if (number as usize) < values.len() {
        values[number as usize] = words;
    }
}
