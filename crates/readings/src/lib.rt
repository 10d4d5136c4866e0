// The readings of an event: what each resource kept of what was due, and its weight in the credits.
#![tactic(auto)]

mod hourly;
mod published;
mod question;
mod rules;
mod source;
mod theorems;

ghost use Rattle.std.specs.Prelude.{◌≡◌};
ghost use Rattle.readings.specs.Sources.{asked};
ghost use Rattle.readings.specs.Table.{Table, Lawful};

pub use hourly::Hourly;
pub use published::Published;
pub use question::Question;
pub use source::Source;
pub use theorems::source_rules_stand;

// A source of readings. It refuses no question, and its meaning is the table of all its answers.
pub trait Readings {
    ghost table: { Self → Table };

    // What each source proves of its table.
    ghost lawful: { (s : Self) → Lawful (table s) };

    // Whether the readings reach `count` resources in an event of `hours` hours.
    fn covers(&self, count: usize, hours: u64) -> bool
        ensures { result ≡ (table self.now).covers count hours };

    // Whether the question is answered from the readings.
    fn answers(&self, question: Question) -> bool
        ensures { result ≡ asked (table self.now).covers question.resource question.position question.hours }
    {
        question.is_in_range() && self.covers(question.resource, question.hours)
    }

    // What the resource kept of what was due: (kept, due).
    fn score(&self, question: Question) -> (u64, u64)
        ensures { result ≡ (table self.now).score question.resource question.position question.hours };

    // The resource's weight in the credits.
    fn weight(&self, question: Question) -> u64
        ensures { result ≡ (table self.now).weight question.resource question.position question.hours };
}
