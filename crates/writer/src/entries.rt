// What stands in a book, as it was entered.
ghost use Rattle.std.specs.Prelude.{◌≡◌};
ghost use Rattle.rules.specs.declared.entry.Entry.{Entry};
ghost use Rattle.rules.specs.Replays.{zone_entry, resource_entry, load_entry, trade_entry};

use rules::entry::{Entry, Offer};
use rules::rows::{Load, Resource, Trade, Zone};

// No `From`: a list's text needs the entry as a function of its row, and `From` says it by a relation.
pub trait Stands {
    ghost stands: { Self → Entry };

    fn as_entry(&self) -> Entry
        ensures { result ≡ stands self.now };
}

impl Stands for Zone {
    ghost stands = { zone_entry };

    fn as_entry(&self) -> Entry {
        Entry::Zone(*self)
    }
}

impl Stands for Resource {
    ghost stands = { resource_entry };

    fn as_entry(&self) -> Entry {
        Entry::Resource(Offer {
            zone: self.zone,
            letter: u8::from(self.class),
            cleared: self.cleared,
            supplied: self.supplied,
        })
    }
}

impl Stands for Load {
    ghost stands = { load_entry };

    fn as_entry(&self) -> Entry {
        Entry::Load(*self)
    }
}

impl Stands for Trade {
    ghost stands = { trade_entry };

    fn as_entry(&self) -> Entry {
        Entry::Trade(*self)
    }
}
