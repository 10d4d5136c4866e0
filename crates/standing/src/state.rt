// The lists of standing entries.
ghost use Rattle.std.specs.Prelude.{◌≡◌, true};
ghost use Rattle.rules.specs.Within.{all_within};

use crate::register::Register;
use rules::rows::{Load, Resource, Trade, Zone};

mod entering;
mod making;
mod reading;
mod trading;

// That each row is within its limits stays a fact here: the definitions make such rows too, and would have to carry proofs if the
// type of a row held it.
#[derive(Drop)]
pub struct Standing {
    zones: Register<Zone, 8>,
    resources: Register<Resource, 64>,
    loads: Register<Load, 32>,
    trades: Register<Trade, 128>,
    ghost rows_within: { all_within resources.entries.items ≡ true },
}
