//! The acts of a run so far, with the lines by which they are told.
ghost use Rattle.std.specs.Prelude.{◌≡◌, ◌++◌, ◌∷◌, OnOk, []};
ghost use Rattle.converge.specs.Going.{IsTold};

use crate::deeds::Deed;
use crate::lines::line_of;
use crate::report::Report;
use doc_tree::{NoMemory, Texts};
use resource_core::RunPlan;
use std::alloc::Global;

/// The acts of a run so far, and the line of each. A line is made behind its act, so that a run which the host cuts off
/// is told without memory.
#[derive(Drop)]
pub(crate) struct Log {
    pub(crate) acts: Vec<Deed>,
    pub(crate) lines: Texts,
}

impl Log {
    /// No act yet.
    pub(crate) fn new(alloc: Global) -> Log
        ensures acts { result.acts.items ≡ [] }
        ensures lines { result.lines ≡ [] }
    {
        Log {
            acts: Vec::new(alloc),
            lines: Texts::new(alloc),
        }
    }

    /// Notes an act of a plan, with its line.
    pub(crate) fn note(&mut self, alloc: Global, plan: &RunPlan, act: Deed) -> Result<(), NoMemory>
        requires { IsTold plan.now self.old }
        ensures noted { OnOk result (self.new.acts.items ≡ self.old.acts.items ++ act ∷ []) }
        ensures told { OnOk result (IsTold plan.now self.new) }
    {
        self.lines.push(line_of(alloc, plan, act)?)?;
        self.acts.push(act)?;
        Ok(())
    }

    /// The lines alone.
    pub(crate) fn into_report(self) -> Report
        ensures { result.lines ≡ self.lines }
    {
        let Log { acts: _, lines } = self;
        Report { lines }
    }
}
