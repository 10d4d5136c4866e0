ghost use Rattle.std.specs.Prelude.{pos};
ghost use Rattle.sharing_tests.specs.Kinds.{charged, credited};
ghost use Rattle.std.proofs.Common.{rules};

use crate::kinds::{Load, Recipient};
use sharing::Party;

impl Party for Load {
    ghost weighs = { λ l. l.obligation };

    ghost took = { λ l. l.charge };

    ghost given = { charged };

    ghost takes = { Prim.search rules };

    ghost keeps = { Prim.search rules };

    fn weight(&self) -> i32 {
        self.obligation
    }

    fn take(&mut self, share: i128) {
        self.charge = share;
    }
}

impl Party for Recipient {
    ghost weighs = { λ r. pos r.weight };

    ghost took = { λ r. r.credit };

    ghost given = { credited };

    ghost takes = { Prim.search rules };

    ghost keeps = { Prim.search rules };

    fn weight(&self) -> i32 {
        self.weight as i32
    }

    fn take(&mut self, share: i128) {
        self.credit = share;
    }
}
