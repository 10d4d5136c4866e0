// The entries, by their numbers and in their order.
ghost use Rattle.std.specs.Prelude.{◌≡◌, ◌≤◌, true, length, IfOk, OnOk, vec_len};
ghost use Rattle.rules.specs.Rows.{numbered};
ghost use Rattle.rules.specs.Tests.{resource_test};
ghost use Rattle.rules.specs.Within.{within};
ghost use Rattle.standing.specs.View.{entries_of};

use super::Standing;
use rules::refusal::Refusal;
use rules::rows::{Load, Resource, Trade, Zone};

impl Standing {
    // The resource of that number, counted from 1.
    pub fn resource(&self, number: u64) -> Result<Resource, Refusal>
        ensures same { result ≡ resource_test (entries_of self.now) number }
        ensures stands { OnOk result ((1 ≤ number) × (number ≤ vec_len self.now.resources.entries)) }
        ensures limits { IfOk result (λ x. within x.row ≡ true) }
    {
        self.resources
            .numbered(number)
            .ok_or(Refusal::ResourceUnknown)
    }

    // The zone of that number, if there is one.
    pub fn zone(&self, number: u64) -> Option<Zone>
        ensures { result ≡ numbered (entries_of self.now).zones number }
    {
        self.zones.numbered(number)
    }

    pub fn zones(&self) -> &[Zone]
        ensures { result.now ≡ (entries_of self.now).zones }
    {
        self.zones.as_slice()
    }

    pub fn resources(&self) -> &[Resource]
        ensures { result.now ≡ (entries_of self.now).resources }
    {
        self.resources.as_slice()
    }

    pub fn loads(&self) -> &[Load]
        ensures { result.now ≡ (entries_of self.now).loads }
    {
        self.loads.as_slice()
    }

    pub fn trades(&self) -> &[Trade]
        ensures all { result.now ≡ (entries_of self.now).trades }
        ensures few { length result.now ≤ 128 }
    {
        self.trades.as_slice()
    }
}
