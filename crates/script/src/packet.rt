// A packet as a script gives it, its bytes held in a `B`.
use esp::Association;

#[derive(Drop)]
pub enum Source<B> {
    // The packet's bytes.
    Bytes(B),
    // What sealing makes of a segment.
    Sealed {
        to: Association,
        number: u32,
        segment: B,
    },
}

#[derive(Drop)]
pub struct Packet<B> {
    pub source: Source<B>,
    // The byte of the packet whose lowest bit is flipped.
    pub flip: Option<u32>,
}
