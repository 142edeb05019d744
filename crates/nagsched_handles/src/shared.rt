//! The parts of a desk that its passes share.

ghost use Rattle.std.specs.Prelude.{◌≡◌, ◌↔◌, true};
ghost use Rattle.check_desk.specs.Desks.{desk_opening, passes_of};

use check_desk::Desk;
use check_objects::Setup;

/// A desk, the names of its objects, and a mark that shows whether two passes share a desk.
#[derive(Drop)]
pub struct Shared {
    /// The desk.
    pub(crate) desk: Desk,
    /// The setup of the desk, for the names of its objects. The desk's own copy is under its lock.
    pub(crate) names: Setup,
    /// The number of the desk's passes.
    pub(crate) passes: u32,
    /// A number that no other desk of the process has. The program that opens desks chooses it.
    pub(crate) mark: u64,
    ghost named: { names ≡ (desk_opening desk).sched.setup },
    ghost passes_are: { passes_of desk ≡ passes },
}

impl Shared {
    /// Whether the two have one mark. Addresses can't be compared, so marks keep the passes of two desks
    /// apart.
    pub(crate) fn has_mark_of(&self, other: &Shared) -> bool
        ensures { (result ≡ true) ↔ (self.now.mark ≡ other.now.mark) }
    {
        self.mark == other.mark
    }
}
