// The rules of the two sources, over every list of numbers.
ghost use Rattle.std.specs.Prelude.{ℕ, List};
ghost use Rattle.readings.specs.Theorems.{PublishedRule, HourlyRule};

// Each source answers what its rule says, in the rule's own words.
pub fn source_rules_stand() -> bool
    ensures published { (scores : List ℕ) → PublishedRule scores }
    ensures hourly { (readings : List ℕ) (made : ℕ) → HourlyRule readings made }
{
    true
}
