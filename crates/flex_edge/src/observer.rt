// Observers of the records of a play.

ghost use Rattle.std.specs.Prelude.{◌≡◌, List, ℕ, Bool, [], IfOk};
ghost use Rattle.flex_base.specs.declared.record.TraceItem.{TraceItem};
ghost use Rattle.flex_edge.specs.Observing.{LeavesAt, Advances};

use flex_base::{NoMemory, TraceItem};
use std::alloc::Global;

/// What an observer wants after a record.
#[derive(Clone, Copy, Debug, PartialEq, Eq)]
pub enum Next {
    /// The next record too.
    Stay,
    /// To give its report, and no further record.
    Leave,
}

/// Who is shown the records of a play, one after another, and reports at the end. This project's
/// own.
///
/// An observer means two functions of what it holds now: the report that it would give after
/// further records, and whether it would leave at the last of them.
pub trait Observer: Drop {
    /// The bytes of the report after these further records.
    ghost report_after: { Self → List TraceItem → List ℕ };

    /// Whether it leaves at the last of these further records.
    ghost leaves_after: { Self → List TraceItem → Bool };

    /// Shows the observer a record. After `NoMemory` it is as before.
    fn see(&mut self, alloc: Global, item: &TraceItem) -> Result<Next, NoMemory>
        ensures leaves { IfOk result (LeavesAt (leaves_after self.old) item.now) }
        ensures report { Advances (report_after self.old) item.now result (report_after self.new) }
        ensures later { Advances (leaves_after self.old) item.now result (leaves_after self.new) };

    /// The report of the records that it was shown.
    fn report(&self, alloc: Global) -> Result<Vec<u8>, NoMemory>
        ensures { IfOk result (λ bytes. bytes.items ≡ report_after self.now []) };
}
