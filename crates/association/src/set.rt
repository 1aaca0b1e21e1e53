// A set of associations.
ghost use Rattle.association.specs.Asked.{inbound, outbound, under};
ghost use Rattle.association.specs.Expiry.{expiry_of, lasting as lasting_to};
ghost use Rattle.std.specs.Prelude.{◌≡◌};
ghost use Rattle.std.proofs.Common.{rules};

use crate::address::Address;
use esp::{Association, ReplayWindow};
use integrity::{Algorithm, Ik};
use slots::Expiring;

// What of a set never changes.
#[derive(Clone, Copy)]
pub struct Parameters {
    // The handset's address, port and SPI: where packets to it go, and what they name. Address and port are no Pair here, as the
    // definitions ask for the address with the port or with the proxy's SPI.
    pub address: Address,
    pub port: u16,
    pub spi: u32,
    // The proxy's SPI: what packets from the handset name.
    pub own_spi: u32,
    pub algorithm: Algorithm,
    pub ik: Ik,
}

impl Parameters {
    // The association under an SPI.
    fn under(&self, spi: u32) -> Association
        ensures { result ≡ under spi self.now }
    {
        Association {
            algorithm: self.algorithm,
            ik: self.ik,
            spi,
        }
    }

    // The association by which segments go to the handset: its packets name the handset's SPI.
    pub fn outbound(&self) -> Association
        ensures { result ≡ outbound self.now }
    {
        self.under(self.spi)
    }

    // The association by which packets come from the handset: they name the proxy's SPI.
    pub fn inbound(&self) -> Association
        ensures { result ≡ inbound self.now }
    {
        self.under(self.own_spi)
    }
}

#[derive(Clone, Copy)]
pub struct Set {
    pub parameters: Parameters,
    // The second at which the set is over.
    pub expiry: u64,
    // The sequence number of the last packet sent, 0 where there is none.
    pub sent: u32,
    // The sequence numbers that came in.
    pub window: ReplayWindow,
}

impl Expiring for Set {
    ghost end = { expiry_of };

    ghost lasting = { lasting_to };

    ghost lasts = { Prim.search rules };

    fn expiry(&self) -> u64 {
        self.expiry
    }

    fn set_expiry(&mut self, expiry: u64) {
        self.expiry = expiry;
    }
}
