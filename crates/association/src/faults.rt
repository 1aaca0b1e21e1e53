// Why a set, or the lack of one, ended a call.
ghost use Rattle.association.specs.Faults.{number_of, place_of};
ghost use Rattle.association.specs.declared.faults.Fault.TheVariants.{Packet};
ghost use Rattle.std.specs.Prelude.{◌≡◌};

use slots::Slot;

#[derive(Clone, Copy, PartialEq, Eq, Debug)]
pub enum Fault {
    // The packet layer refused.
    Packet(esp::Fault),
    // An arriving segment has not the handset's port as source and the protected one as destination.
    ArrivingPorts,
    // A segment to be sent has not the handset's port as destination, or in clear the protected one as source.
    SendingPort,
    // No set has this address and this proxy's SPI.
    NoSet,
    // Such a message may not come on this slot.
    WrongSlot(Slot),
    // The message names another subscriber, or an IMPU that is not registered, on this slot.
    NotHis(Slot),
    // The response's offer is not the opening REGISTER's.
    OtherOffer,
    // No set carries traffic.
    NoTraffic,
    // Every sequence number of the set in this slot was used.
    CounterSpent(Slot),
    // No IMPU is registered.
    NoImpu,
}

impl From<esp::Fault> for Fault {
    ghost from_gives = { λ e r. r ≡ Packet e };

    fn from(fault: esp::Fault) -> Fault {
        Fault::Packet(fault)
    }
}

impl Fault {
    // The number that the fault is known by. A variant with data has no discriminant to read, so there is a table.
    pub fn number(&self) -> u8
        ensures { result ≡ number_of self.now }
    {
        match *self {
            Fault::Packet(fault) => fault.number(),
            Fault::ArrivingPorts | Fault::SendingPort => 15,
            Fault::NoSet => 21,
            Fault::WrongSlot(_) => 22,
            Fault::NotHis(_) => 23,
            Fault::OtherOffer => 24,
            Fault::NoTraffic => 25,
            Fault::CounterSpent(_) => 26,
            Fault::NoImpu => 27,
        }
    }

    // Where it lies: a length, a place in the packet, or a slot.
    pub fn place(&self) -> usize
        ensures { result ≡ place_of self.now }
    {
        match *self {
            Fault::Packet(fault) => fault.place(),
            Fault::ArrivingPorts => 8,
            Fault::WrongSlot(slot) | Fault::NotHis(slot) | Fault::CounterSpent(slot) =>
                slot.number() as usize,
            Fault::OtherOffer => 3,
            Fault::SendingPort | Fault::NoSet | Fault::NoTraffic | Fault::NoImpu => 0,
        }
    }
}
