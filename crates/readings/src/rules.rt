// The rules that the sources share.
ghost use Rattle.std.specs.Prelude.{◌≡◌};
ghost use Rattle.readings.specs.Rules.{at_most, first_at_most};

// The score of a question that is not answered from the readings: nothing kept of 1, as the rule says.
pub const UNANSWERED: (u64, u64) = (0, 1);

fn are_at_most(numbers: &[u64], limit: u64) -> bool
    ensures { result ≡ at_most limit numbers.now }
{
    numbers.iter().all(|x| *x <= limit)
}

// Whether the first `count` numbers exist and are at most `limit`.
pub fn first_at_most(numbers: &[u64], count: usize, limit: u64) -> bool
    ensures { result ≡ first_at_most numbers.now count limit }
{
    numbers
        .get(..count)
        .is_some_and(|first| are_at_most(first, limit))
}
