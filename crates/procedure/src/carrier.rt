// What a segment goes to the handset by.
ghost use Rattle.procedure.specs.Carriers.{carrier_number, cover_carrier};
ghost use Rattle.std.specs.Prelude.{◌≡◌};

use slots::{Cover, Slot};

// Three ways with numbers of their own, and nothing sent is one of them: no `Option` of two.
#[derive(Clone, Copy, PartialEq, Eq, Debug)]
pub enum Carrier {
    // 0: in clear.
    Clear,
    // The slot's number: sealed by the set in that slot.
    By(Slot),
    // 4: there is no set to send by, and nothing is sent.
    Nothing,
}

impl Carrier {
    // A variant with data has no discriminant to read, so the numbers stand in a table.
    pub fn number(self) -> u8
        ensures { result ≡ carrier_number self }
    {
        match self {
            Carrier::Clear => 0,
            Carrier::By(slot) => slot.number(),
            Carrier::Nothing => 4,
        }
    }
}

// An answer to a REGISTER goes the way the REGISTER came.
impl From<Cover> for Carrier {
    ghost from_gives = { λ cover r. r ≡ cover_carrier cover };

    fn from(cover: Cover) -> Carrier {
        cover.slot().map_or(Carrier::Clear, Carrier::By)
    }
}

// How many bytes were written into the output area, and what they go by.
#[derive(Clone, Copy, PartialEq, Eq, Debug)]
pub struct Sent {
    pub bytes: usize,
    pub carrier: Carrier,
}
