// The places of a subscriber's sets.
ghost use Rattle.slots.specs.Numbers.{slot_number};
ghost use Rattle.std.specs.Prelude.{◌≡◌};

#[derive(Clone, Copy, PartialEq, Eq, Debug)]
pub enum Slot {
    // The set before the current one.
    Old = 1,
    // The set that the last success made.
    Current = 2,
    // The set of a registration that is not concluded.
    Registration = 3,
}

impl Slot {
    // The number that answers and faults name the slot by.
    pub fn number(self) -> u8
        ensures { result ≡ slot_number self }
    {
        self as u8
    }
}
