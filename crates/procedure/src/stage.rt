// How far a registration is.
ghost use Rattle.procedure.specs.Stages.{pair_of, phase_number, phase_of};
ghost use Rattle.std.specs.Prelude.{◌≡◌};

use crate::offer::Offer;
use association::{Address, Pair};
use integrity::Algorithm;
use slots::Cover;

// What a procedure keeps of its opening REGISTER.
#[derive(Clone, Copy, PartialEq, Eq, Debug)]
pub struct Procedure {
    pub offer: Offer,
    pub address: Address,
    // What the proxy chose.
    pub algorithm: Algorithm,
    pub own_spi: u32,
    // What the REGISTER came under.
    pub cover: Cover,
}

impl Procedure {
    // The pair that its set has or will have.
    pub fn pair(&self) -> Pair
        ensures { result ≡ pair_of self.now }
    {
        Pair {
            address: self.address,
            port: self.offer.port,
        }
    }
}

// Four stages with numbers of their own, and none is one of them: no `Option` of three.
#[derive(Clone, Copy, PartialEq, Eq, Debug)]
pub enum Stage {
    // 0: no procedure runs.
    None,
    // 1: an opening REGISTER came, and is to be challenged before the deadline.
    Offered { procedure: Procedure, deadline: u64 },
    // 2: the challenge was sent, and the set for the response stands in slot 3.
    Challenged { procedure: Procedure },
    // 3: the response came on that set.
    Answered { procedure: Procedure },
}

// A stage by its name alone.
#[derive(Clone, Copy, PartialEq, Eq, Debug)]
pub enum Phase {
    None = 0,
    Offered = 1,
    Challenged = 2,
    Answered = 3,
}

impl Phase {
    pub fn number(self) -> u8
        ensures { result ≡ phase_number self }
    {
        self as u8
    }
}

impl Stage {
    // A table, as no derive drops what the variants hold.
    pub fn phase(&self) -> Phase
        ensures { result ≡ phase_of self.now }
    {
        match self {
            Stage::None => Phase::None,
            Stage::Offered { .. } => Phase::Offered,
            Stage::Challenged { .. } => Phase::Challenged,
            Stage::Answered { .. } => Phase::Answered,
        }
    }
}
