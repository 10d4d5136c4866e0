// What holds of every sheet.
ghost use Rattle.sheet.specs.Laws.{SheetsStand};

// Sheets and ledgers fix each other.
#[tactic(auto, using(crate::proofs::Accepted::sheets_stand_lem))]
pub fn sheets_stand() -> bool
    ensures { SheetsStand }
{
    true
}
