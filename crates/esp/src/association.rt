// A security association (RFC 2401, clause 4.1) in one direction.
use integrity::{Algorithm, Ik};

// What the packets of an association are sealed under, and the SPI that they name.
#[derive(Clone, Copy)]
pub struct Association {
    pub algorithm: Algorithm,
    pub ik: Ik,
    pub spi: u32,
}
