// The entries of an empty book.
ghost use Rattle.std.specs.Prelude.{◌≡◌, IfOk};
ghost use Rattle.rules.specs.Ledger.{no_entries};
ghost use Rattle.standing.specs.View.{entries_of};

use super::Standing;
use crate::register::Register;
use std::alloc::{AllocError, Global};

impl Standing {
    // No entries, with memory for all that the limits allow.
    pub fn new(heap: Global) -> Result<Standing, AllocError>
        ensures { IfOk result (λ s. entries_of s ≡ no_entries) }
    {
        Ok(Standing {
            zones: Register::new(heap)?,
            resources: Register::new(heap)?,
            loads: Register::new(heap)?,
            trades: Register::new(heap)?,
        })
    }

    // Lets all entries go.
    pub fn clear(&mut self)
        ensures { entries_of self.new ≡ no_entries }
    {
        self.zones.clear();
        self.resources.clear();
        self.loads.clear();
        self.trades.clear();
    }
}
