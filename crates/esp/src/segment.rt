// A segment that came out of a packet.

#[derive(Clone, Copy)]
pub struct Segment<'a> {
    // The segment's bytes, a part of the packet.
    pub bytes: &'a [u8],
    // Where in the packet they begin.
    pub place: usize,
}
