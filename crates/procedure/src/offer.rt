// What a handset offers in a REGISTER (the Security-Client of TS 33.203, clause 7.2).
ghost use Rattle.procedure.specs.Offers.{offer_has, offer_right};
ghost use Rattle.std.specs.Prelude.{◌≡◌};

use integrity::Algorithm;

#[derive(Clone, Copy, PartialEq, Eq, Debug)]
pub struct Offer {
    // The handset's port and SPI.
    pub port: u16,
    pub spi: u32,
    // The numbers of one or two algorithms as the handset sent them, 0 in place of a second. They stay numbers, since a
    // wrong one is to be refused with its own fault, and two offers are compared as they were sent.
    pub first: u8,
    pub second: u8,
}

impl Offer {
    // Whether ports, SPI and algorithm numbers are such as a handset may offer. SPIs below 256 are reserved
    // (RFC 2406, clause 2.1).
    pub fn is_right(&self) -> bool
        ensures { result ≡ offer_right self.now }
    {
        self.port >= 1
            && self.spi >= 256
            && Algorithm::try_from(self.first).is_ok()
            && self.second <= 2
            && self.second != self.first
    }

    // Whether an algorithm is offered.
    pub fn has(&self, algorithm: Algorithm) -> bool
        ensures { result ≡ offer_has self.now algorithm }
    {
        self.first == algorithm.number() || self.second == algorithm.number()
    }
}
