// Published scores: one score for each resource, in ten-thousandths of what was due.
ghost use Rattle.std.specs.Prelude.{◌≡◌, ◌-◌, ◌*◌, ◌/◌, ◌≤◌, true, slice_index, IfSome};
ghost use Rattle.std.specs.Bool.{then_some};
ghost use Rattle.readings.specs.Rules.{first_at_most};
ghost use Rattle.readings.specs.Sources.{asked, published_covers, published_of};
ghost use Rattle.readings.specs.PublishedLaws.{published_lawful};

use crate::rules::{UNANSWERED, first_at_most};
use crate::{Question, Readings};

#[derive(Clone, Copy)]
pub struct Published<'a> {
    pub scores: &'a [u64],
}

// The score of one resource, where it is covered.
#[tactic(auto, using(crate::specs::Ranges::first_at_most_get_or))]
fn score_of(scores: &[u64], resource: usize) -> u64
    requires { (1 ≤ resource) × (first_at_most scores.now resource 10000 ≡ true) }
    ensures value { result ≡ slice_index scores.now (resource - 1) }
    ensures most { result ≤ 10000 }
{
    scores[resource - 1]
}

// So many ten-thousandths of what was due.
fn part_of(due: u64, score: u64) -> u64
    requires { (due ≤ 4800000) × (score ≤ 10000) }
    ensures { result ≡ due * score / 10000 }
{
    due * score / 10000
}

impl Published<'_> {
    // The score that answers a question; none where it is not answered from the scores.
    fn own_score(&self, question: Question) -> Option<u64>
        ensures value { let scores = self.now.scores.now in
            result ≡ then_some
            (asked (published_covers scores) question.resource question.position question.hours)
            (slice_index scores (question.resource - 1)) }
        ensures most { IfSome result (λ score. score ≤ 10000) }
        ensures ranges { IfSome result (λ _. (question.position ≤ 200000) × (question.hours ≤ 24)) }
    {
        self.answers(question)
            .then(|| score_of(self.scores, question.resource))
    }
}

impl Readings for Published<'_> {
    ghost table = { λ s. published_of s.scores.now };

    ghost lawful = { λ s. published_lawful s.scores.now };

    fn covers(&self, count: usize, hours: u64) -> bool {
        first_at_most(self.scores, count, 10000)
    }

    fn score(&self, question: Question) -> (u64, u64) {
        self.own_score(question)
            .map_or(UNANSWERED, |score| (score, 10000))
    }

    fn weight(&self, question: Question) -> u64 {
        self.own_score(question)
            .map_or(0, |score| part_of(question.due(), score))
    }
}
