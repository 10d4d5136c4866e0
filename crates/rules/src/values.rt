ghost use Rattle.std.specs.Prelude.{◌≡◌};
ghost use Rattle.rules.specs.Tests.{any_above};

// Whether one of the values is above the limit.
pub fn some_above(limit: u64, values: &[u64]) -> bool
    ensures { result ≡ any_above limit values.now }
{
    values.iter().any(|value| *value > limit)
}
