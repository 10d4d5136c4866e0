// Hourly readings: for each resource one number for each hour of the event.
ghost use Rattle.std.specs.Prelude.{◌≡◌, ◌*◌, ◌^◌, ◌<◌, ◌≤◌, min, true, length, sum_by, sum, IfSome};
ghost use Rattle.std.specs.Bool.{then_some};
ghost use Rattle.std.specs.Option.{option_copied};
ghost use Rattle.readings.specs.Rules.{first_at_most};
ghost use Rattle.readings.specs.Sources.{asked, hourly_covers, hourly_of, hours_of};
ghost use Rattle.readings.specs.HourlyLaws.{hourly_lawful};

use crate::rules::{UNANSWERED, first_at_most};
use crate::{Question, Readings};

// In order of resource, then hour, made for events of `hours` hours.
#[derive(Clone, Copy)]
pub struct Hourly<'a> {
    pub readings: &'a [u64],
    pub hours: u64,
}

// The readings of one resource, where it is covered.
fn hours_of(readings: &[u64], resource: usize, hours: u64) -> &[u64]
    requires { (1 ≤ resource) × (first_at_most readings.now (resource * hours) 200000 ≡ true) }
    ensures value { result.now ≡ hours_of readings.now resource hours }
    ensures few { length result.now ≤ hours }
    ensures most { sum result.now ≤ 200000 * hours }
{
    let start = (resource - 1) * hours as usize;
    &readings[start..start + hours as usize]
}

// The sum of the readings, each counted up to `most`.
fn sum_up_to(readings: &[u64], most: u64) -> u64
    requires { (length readings.now ≤ 24) × (most ≤ 4800000) }
    ensures { result ≡ sum_by (λ x. min x most) readings.now }
{
    readings.iter().map(|x| (*x).min(most)).sum()
}

fn total(readings: &[u64]) -> u64
    requires { sum readings.now < 2 ^ 64 }
    ensures { result ≡ sum readings.now }
{
    readings.iter().sum()
}

impl Hourly<'_> {
    // The readings that answer a question; none where it is not answered from the readings.
    fn own_readings(&self, question: Question) -> Option<&[u64]>
        ensures value { let readings = self.now.readings.now in
            option_copied result ≡ then_some
            (asked (hourly_covers readings self.now.hours) question.resource question.position question.hours)
            (hours_of readings question.resource question.hours) }
        ensures few { IfSome result (λ own. (length own.now ≤ 24) × (sum own.now ≤ 4800000)) }
        ensures ranges { IfSome result (λ _. (question.position ≤ 200000) × (question.hours ≤ 24)) }
    {
        self.answers(question).then(|| hours_of(self.readings, question.resource, question.hours))
    }
}

impl Readings for Hourly<'_> {
    ghost table = { λ s. hourly_of s.readings.now s.hours };

    ghost lawful = { λ s. hourly_lawful s.readings.now s.hours };

    fn covers(&self, count: usize, hours: u64) -> bool {
        self.hours == hours
            && count
                .checked_mul(hours as usize)
                .is_some_and(|numbers| first_at_most(self.readings, numbers, 200000))
    }

    fn score(&self, question: Question) -> (u64, u64) {
        self.own_readings(question).map_or(UNANSWERED, |own| {
            (sum_up_to(own, question.position), question.due())
        })
    }

    fn weight(&self, question: Question) -> u64 {
        self.own_readings(question).map_or(0, total)
    }
}
