use readings::{Hourly, Published, Question, Readings, Source};
use std::process::Abort;

pub fn hourly(readings: &[u64], hours: u64) -> Source<'_> {
    Source::Hourly(Hourly { readings, hours })
}

pub fn published(scores: &[u64]) -> Source<'_> {
    Source::Published(Published { scores })
}

// A question, with the score and the weight that it is to answer.
#[derive(Clone, Copy)]
pub struct Asked {
    question: Question,
    score: (u64, u64),
    weight: u64,
}

pub fn asks(resource: usize, position: u64, hours: u64, score: (u64, u64), weight: u64) -> Asked {
    Asked {
        question: Question {
            resource,
            position,
            hours,
        },
        score,
        weight,
    }
}

// A question that is not answered from the readings.
pub fn silent(resource: usize, position: u64, hours: u64) -> Asked {
    asks(resource, position, hours, (0, 1), 0)
}

pub fn answers<R: Readings>(rt: &impl Abort, source: &R, questions: &[Asked]) {
    for asked in questions {
        assert_eq!(rt; source.score(asked.question), asked.score);
        assert_eq!(rt; source.weight(asked.question), asked.weight);
    }
}

// Counts and hours, with whether they are covered.
pub fn covers<R: Readings>(rt: &impl Abort, source: &R, counts: &[(usize, u64, bool)]) {
    for (count, hours, covered) in counts {
        assert_eq!(rt; source.covers(*count, *hours), *covered);
    }
}
