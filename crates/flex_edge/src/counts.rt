// Counts of calls and of faults, and which calls are listed to fail.

ghost use Rattle.std.specs.Prelude.{◌≡◌, ◌↔◌, IsTrue};
ghost use Rattle.flex_edge.specs.Outside.{Rose};
ghost use Rattle.flex_edge.specs.Calls.{TakenCount};
ghost use Rattle.flex_edge.specs.Memory.{next_count, IsListed};
ghost use Rattle.flex_edge.specs.MemoryCalls.{faults_after};

use flex_base::Sequence;

/// Numbers, as those of the calls that are to fail.
pub type Numbers = Sequence<u64>;

// One more than a count, which stands still at its end.
pub(crate) fn next_count(count: u64) -> u64
    ensures value { result ≡ next_count count }
    ensures rose { Rose count result }
{
    count.saturating_add(1)
}

// Whether, after so many calls, the next one is listed to fail.
pub(crate) fn is_listed(fails: &Numbers, calls: u64) -> bool
    ensures { IsTrue result ↔ IsListed fails.now calls }
{
    fails.as_slice().contains(&next_count(calls))
}

// The count of write faults after a piece of which so many bytes were taken.
pub(crate) fn faults_after(taken: usize, piece: &[u8], faults: u64) -> u64
    ensures value { result ≡ faults_after taken piece.now faults }
    ensures rose { TakenCount taken piece.now faults result }
{
    if taken == 0 && !piece.is_empty() {
        next_count(faults)
    } else {
        faults
    }
}
