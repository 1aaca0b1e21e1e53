// What the proxy chose for an offer.
use integrity::Algorithm;

#[derive(Clone, Copy, PartialEq, Eq, Debug)]
pub struct Chosen {
    pub algorithm: Algorithm,
    // The proxy's SPI.
    pub spi: u32,
}
