// A resource's position: twelve months, each between 0 and 200,000.
ghost use Rattle.std.specs.Prelude.{◌≡◌, ℕ, ◌<◌, ◌≤◌, true, false, IfSome, MatchOption, slice_index};
ghost use Rattle.std.specs.Option.{option_map};
ghost use Rattle.rules.specs.Positions.{changed_row};
ghost use Rattle.rules.specs.Within.{changed_month, within};

use crate::rows::Change;
use crate::values::some_above;

#[derive(Clone, Copy)]
pub struct Position {
    months: [u64; 12],
    ghost limits: { (k : ℕ) → k < 12 → slice_index months k ≤ 200000 },
}

impl Position {
    // The position of a plain row, if each month is within the limits. An Option and no `TryFrom`: what is refused is told by
    // the call that makes the change.
    pub fn of_row(row: [u64; 12]) -> Option<Position>
        ensures { MatchOption result (within row ≡ false) (λ p. p.months ≡ row) }
    {
        if some_above(200000, &row) {
            return None;
        }
        Some(Position { months: row })
    }

    pub fn row(self) -> [u64; 12]
        ensures same { result ≡ self.months }
        ensures limits { within result ≡ true }
    {
        self.months
    }

    // The position after the change, if every month stays within the limits.
    pub fn changed(self, change: Change) -> Option<Position>
        ensures { option_map (λ p. p.months) result ≡ changed_row change self.months }
    {
        // by place: of what an adapter of `iter_mut` wrote nothing is known afterwards
        let mut months = self.months;
        for (k, held) in self.months.iter().enumerate() {
            months[k] = month_changed(change, k, *held)?;
        }
        Some(Position { months })
    }
}

// What the change makes of the position in the k-th month, counted from 0, if that stays within the limits.
fn month_changed(change: Change, k: usize, held: u64) -> Option<u64>
    requires { k < 12 }
    ensures { result ≡ changed_month change k held }
{
    let month = k as u64 + 1;
    if !(change.first..=change.last).contains(&month) {
        return Some(held);
    }
    // the difference first, so that a change of any size is answered
    let after = if change.acquired >= change.shed {
        held.checked_add(change.acquired - change.shed)
    } else {
        held.checked_sub(change.shed - change.acquired)
    };
    after.filter(|after| *after <= 200000)
}

// What the change makes of a plain row, if every month stays within the limits. A row comes in and goes out plain, with its
// limits as a fact beside it: the definitions make rows too, and would have to carry proofs if the type of a row held it.
pub fn row_changed(row: [u64; 12], change: Change) -> Option<[u64; 12]>
    requires { within row ≡ true }
    ensures same { result ≡ changed_row change row }
    ensures limits { IfSome result (λ x. within x ≡ true) }
{
    let position = Position::of_row(row)?;
    position.changed(change).map(Position::row)
}
