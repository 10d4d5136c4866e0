// What stands in a book.
ghost use Rattle.std.specs.Prelude.{◌≡◌};
ghost use Rattle.standing.specs.View.{entries_of};
ghost use Rattle.book.specs.View.{view};

use super::Book;
use standing::Standing;

impl Book {
    pub fn year(&self) -> u64
        ensures { result ≡ (view self.now).year }
    {
        self.year
    }

    pub fn peak(&self) -> u64
        ensures { result ≡ (view self.now).peak }
    {
        self.peak
    }

    pub fn standing(&self) -> &Standing
        ensures { entries_of result.now ≡ (view self.now).standing }
    {
        &self.standing
    }
}
