// What a book holds.
ghost use Rattle.standing.specs.View.{entries_of};
ghost use Rattle.book.specs.Holds.{ledger_of, Held};

use rules::rows::Stage;
use standing::Standing;

mod answering;
mod entering;
mod opening;
mod reading;
mod stepping;
mod trading;

// It keeps, whatever is called, what every ledger of a run keeps: limits, and positions that are those of the trades; and
// entries that a fresh book would take again. The month stands beside the stage, and not in it: trades test it in each stage.
#[derive(Drop)]
pub struct Book {
    year: u64,
    peak: u64,
    month: u64,
    stage: Stage,
    standing: Standing,
    ghost held: { ∥ Held (ledger_of year peak month stage (entries_of standing)) ∥₁ },
}
