// Why a call was refused.
ghost use Rattle.association.specs.declared.faults.Fault.TheVariants.{Packet};
ghost use Rattle.procedure.specs.Faults.{number_of, place_of};
ghost use Rattle.procedure.specs.declared.faults.Fault.TheVariants.{Association};
ghost use Rattle.std.specs.Prelude.{◌≡◌};

use crate::stage::Phase;

#[derive(Clone, Copy, PartialEq, Eq, Debug)]
pub enum Fault {
    // A set, or the lack of one, is the reason.
    Association(association::Fault),
    // There is no such subscriber.
    NoSubscriber,
    // The time is before the clock or too late.
    WrongTime,
    // Of the following, each carries the row's stage before the call.
    // Port, SPI or algorithms of the offer are not such as a handset may offer.
    BadOffer(Phase),
    // No algorithm of the offer is one of the proxy's.
    NoAlgorithm(Phase),
    // A set of the subscriber has the offered SPI.
    SpiInUse(Phase),
    // A set has the address and port.
    PairInUse(Phase),
    // The call does not fit the stage.
    WrongStage(Phase),
    // The set that the opening REGISTER came under is gone.
    CoverGone(Phase),
    // The timer or the mask is not such as the core may give.
    BadTerms(Phase),
}

impl From<association::Fault> for Fault {
    ghost from_gives = { λ e r. r ≡ Association e };

    fn from(fault: association::Fault) -> Fault {
        Fault::Association(fault)
    }
}

impl From<esp::Fault> for Fault {
    ghost from_gives = { λ e r. r ≡ Association (Packet e) };

    fn from(fault: esp::Fault) -> Fault {
        Fault::Association(association::Fault::Packet(fault))
    }
}

impl Fault {
    // The number that the fault is known by. A variant with data has no discriminant to read, so there is a table.
    pub fn number(&self) -> u8
        ensures { result ≡ number_of self.now }
    {
        match *self {
            Fault::Association(fault) => fault.number(),
            Fault::NoSubscriber => 31,
            Fault::WrongTime => 32,
            Fault::BadOffer(_) => 33,
            Fault::NoAlgorithm(_) => 34,
            Fault::SpiInUse(_) => 35,
            Fault::PairInUse(_) => 36,
            Fault::WrongStage(_) => 37,
            Fault::CoverGone(_) => 38,
            Fault::BadTerms(_) => 39,
        }
    }

    // Where it lies: what the layer below says, or the stage before the call.
    pub fn place(&self) -> usize
        ensures { result ≡ place_of self.now }
    {
        match *self {
            Fault::Association(fault) => fault.place(),
            Fault::NoSubscriber | Fault::WrongTime => 0,
            Fault::BadOffer(phase)
            | Fault::NoAlgorithm(phase)
            | Fault::SpiInUse(phase)
            | Fault::PairInUse(phase)
            | Fault::WrongStage(phase)
            | Fault::CoverGone(phase)
            | Fault::BadTerms(phase) => phase.number() as usize,
        }
    }
}
