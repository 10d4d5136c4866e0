// What a source is asked.
ghost use Rattle.std.specs.Prelude.{◌≡◌, ◌*◌, ◌≤◌};
ghost use Rattle.readings.specs.Rules.{in_range};

// A resource, counted from 1, with its position in an event of so many hours.
#[derive(Clone, Copy)]
pub struct Question {
    pub resource: usize,
    pub position: u64,
    pub hours: u64,
}

impl Question {
    // Whether the three are in their ranges.
    pub(crate) fn is_in_range(self) -> bool
        ensures { result ≡ in_range self.resource self.position self.hours }
    {
        self.resource >= 1
            && (1..=200000).contains(&self.position)
            && (1..=24).contains(&self.hours)
    }

    // Position times hours: what an event of full availability would read.
    pub(crate) fn due(self) -> u64
        requires { (self.position ≤ 200000) × (self.hours ≤ 24) }
        ensures value { result ≡ self.position * self.hours }
        ensures most { result ≤ 4800000 }
    {
        self.position * self.hours
    }
}
