// Why a segment was not sealed or a packet not opened.
ghost use Rattle.esp.specs.Faults.{number_of, place_of};
ghost use Rattle.std.specs.Prelude.{◌≡◌};

#[derive(Clone, Copy, PartialEq, Eq, Debug)]
pub enum Fault {
    // The packet is not of 32 to 1424 bytes or no multiple of 4: the length found.
    PacketLength(usize),
    // The sequence number does not pass the replay window.
    Replayed,
    // The tag is not the algorithm's: where the tag stands.
    WrongTag(usize),
    // Next header, padding or the segment's length is wrong: where the pad length stands.
    WrongTrailer(usize),
    // The segment is not of 8 to 1400 bytes: the length found.
    SegmentLength(usize),
    // The output area is too short for the packet: its length.
    AreaLength(usize),
    // The packet is for another SPI.
    OtherSpi,
    // Every sequence number was used.
    CounterSpent,
}

impl Fault {
    // The number that the fault is known by. A variant with data has no discriminant to read, so there is a table.
    pub fn number(&self) -> u8
        ensures { result ≡ number_of self.now }
    {
        match *self {
            Fault::PacketLength(_) => 11,
            Fault::Replayed => 12,
            Fault::WrongTag(_) => 13,
            Fault::WrongTrailer(_) => 14,
            Fault::SegmentLength(_) => 16,
            Fault::AreaLength(_) => 17,
            Fault::OtherSpi => 21,
            Fault::CounterSpent => 26,
        }
    }

    // Where it lies: a length that was found, or a place in the packet.
    pub fn place(&self) -> usize
        ensures { result ≡ place_of self.now }
    {
        match *self {
            Fault::PacketLength(n)
            | Fault::WrongTag(n)
            | Fault::WrongTrailer(n)
            | Fault::SegmentLength(n)
            | Fault::AreaLength(n) => n,
            Fault::Replayed => 4,
            Fault::OtherSpi | Fault::CounterSpent => 0,
        }
    }
}
