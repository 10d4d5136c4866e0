// A source of either kind, by value: a list of calls is to hold sources of both kinds, with nothing beside it that owns them.
// So no `&dyn`, which needs an owner, and no box, which needs the heap.
ghost use Rattle.readings.specs.EitherSource.{source_of, source_lawful};

use crate::hourly::Hourly;
use crate::published::Published;
use crate::{Question, Readings};

#[derive(Clone, Copy)]
pub enum Source<'a> {
    Hourly(Hourly<'a>),
    Published(Published<'a>),
}

impl Readings for Source<'_> {
    ghost table = { source_of };

    ghost lawful = { source_lawful };

    fn covers(&self, count: usize, hours: u64) -> bool {
        match self {
            Source::Hourly(source) => source.covers(count, hours),
            Source::Published(source) => source.covers(count, hours),
        }
    }

    fn score(&self, question: Question) -> (u64, u64) {
        match self {
            Source::Hourly(source) => source.score(question),
            Source::Published(source) => source.score(question),
        }
    }

    fn weight(&self, question: Question) -> u64 {
        match self {
            Source::Hourly(source) => source.weight(question),
            Source::Published(source) => source.weight(question),
        }
    }
}
