// Zones, resources and loads.
ghost use Rattle.std.specs.Prelude.{◌≡◌};
ghost use Rattle.rules.specs.Entries.{enter_zone, enter_resource, enter_load};
ghost use Rattle.rules.specs.Tests.{zone_test};
ghost use Rattle.standing.specs.View.{entries_of};

use super::Standing;
use crate::limits::*;
use rules::class::Class;
use rules::entry::Offer;
use rules::refusal::Refusal;
use rules::rows::{Load, Resource, Zone};

impl Standing {
    // There is a zone of that number.
    pub fn test_zone(&self, zone: u64) -> Result<(), Refusal>
        ensures { result ≡ zone_test (entries_of self.now) zone }
    {
        Refusal::ZoneUnknown.when(self.zone(zone).is_none())
    }

    // Enters a zone with its price and its twelve rents before June, and answers its number.
    pub fn enter_zone(&mut self, zone: Zone) -> Result<u64, Refusal>
        ensures { (result, entries_of self.new) ≡ enter_zone (entries_of self.old) zone.price zone.rents }
    {
        self.zones.test_room(Refusal::ZonesFull)?;
        test_price(zone.price)?;
        test_rents(&zone.rents)?;
        Ok(self.zones.push(zone))
    }

    // Enters a resource by the letter of its class, and answers its number.
    pub fn enter_resource(&mut self, offer: Offer) -> Result<u64, Refusal>
        ensures { (result, entries_of self.new) ≡ enter_resource (entries_of self.old) offer.zone offer.letter offer.cleared offer.supplied }
    {
        let Offer {
            zone,
            letter,
            cleared,
            supplied,
        } = offer;
        self.test_zone(zone)?;
        self.resources.test_room(Refusal::ResourcesFull)?;
        let class = Class::try_from(letter)?;
        test_cleared(cleared)?;
        test_supplied(cleared, supplied)?;
        let row = [cleared; 12];
        Ok(
            self.resources.push(Resource {
                zone,
                class,
                cleared,
                supplied,
                row,
            }),
        )
    }

    // Enters a load with its obligation of every month, and answers its number.
    pub fn enter_load(&mut self, load: Load) -> Result<u64, Refusal>
        ensures { (result, entries_of self.new) ≡ enter_load (entries_of self.old) load.zone load.obligation }
    {
        self.test_zone(load.zone)?;
        self.loads.test_room(Refusal::LoadsFull)?;
        test_obligation(load.obligation)?;
        Ok(self.loads.push(load))
    }
}
