// What an opening REGISTER came under.
ghost use Rattle.slots.specs.Numbers.{cover_number, cover_slot, slot_cover};
ghost use Rattle.std.specs.Option.{ok_or};
ghost use Rattle.std.specs.Prelude.{◌≡◌};

use crate::slot::Slot;

#[derive(Clone, Copy, PartialEq, Eq, Debug)]
pub enum Cover {
    // In clear.
    Clear = 0,
    // Protected by the old set.
    Old = 1,
    // Protected by the current set.
    Current = 2,
}

impl Cover {
    pub fn number(self) -> u8
        ensures { result ≡ cover_number self }
    {
        self as u8
    }

    // The slot of the set that it came under.
    pub fn slot(self) -> Option<Slot>
        ensures { result ≡ cover_slot self }
    {
        match self {
            Cover::Clear => None,
            Cover::Old => Some(Slot::Old),
            Cover::Current => Some(Slot::Current),
        }
    }
}

// What an opening REGISTER came under that came on a slot. The registration's slot covers none, and is given back.
impl TryFrom<Slot> for Cover {
    type Error = Slot;

    ghost try_from_gives = { λ slot r. r ≡ ok_or (slot_cover slot) slot };

    fn try_from(slot: Slot) -> Result<Cover, Slot> {
        match slot {
            Slot::Old => Ok(Cover::Old),
            Slot::Current => Ok(Cover::Current),
            Slot::Registration => Err(slot),
        }
    }
}
