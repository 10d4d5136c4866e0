ghost use Rattle.std.specs.Prelude.{◌≤◌};

// A load, with an obligation of either sign in hundredths of a megawatt and its charge in cents.
#[derive(Clone, Copy)]
pub struct Load {
    pub obligation: i32,
    pub charge: i128,
}

// A resource that takes part in the penalties of its zone by a weight that is never negative:
// at most 200,000 an hour, over the 48 hours that the events of a month have at most.
#[derive(Clone, Copy)]
pub struct Recipient {
    pub weight: u32,
    pub credit: i128,
    ghost small: { weight ≤ 9600000 },
}
