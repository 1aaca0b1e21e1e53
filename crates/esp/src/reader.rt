// The parts of a received packet.
ghost use Rattle.std.specs.Prelude.{◌≡◌, ◌+◌, ◌≤◌, true, false, length, MatchResult, slice_index};
ghost use Rattle.esp.specs.Opening.{shown, unwrapped};
ghost use Rattle.esp.specs.Packet.{padding};
ghost use Rattle.esp.specs.Reading.{covered_of, number_of as sequence_of, packet_right, spi_of, tag_of, word};
ghost use Rattle.esp.specs.declared.faults.Fault.TheVariants.{PacketLength};
ghost use Rattle.std.specs.Str.{bytes_eq};

use crate::faults::Fault;
use crate::layout::{
    HEAD, LONGEST_PACKET, LONGEST_SEGMENT, SHORTEST_PACKET, SHORTEST_SEGMENT, TAG_LEN, TAIL, UDP,
};
use crate::segment::Segment;

// A reader over a packet that came in, whose length is right.
#[derive(Clone, Copy)]
pub struct PacketReader<'a> {
    bytes: &'a [u8],
    ghost right: { packet_right (length bytes.now) ≡ true },
}

impl<'a> PacketReader<'a> {
    // A reader over a packet, if its length is right.
    pub fn new(bytes: &'a [u8]) -> Result<PacketReader<'a>, Fault>
        ensures { MatchResult result (λ p. (packet_right (length bytes.now) ≡ true) × (p.bytes.now ≡ bytes.now)) (λ e. (packet_right (length bytes.now) ≡ false) × (e ≡ PacketLength (length bytes.now))) }
    {
        let n = bytes.len();
        if !(SHORTEST_PACKET..=LONGEST_PACKET).contains(&n) || n % 4 != 0 {
            return Err(Fault::PacketLength(n));
        }
        Ok(PacketReader { bytes })
    }

    // The SPI that the packet names.
    pub fn spi(&self) -> u32
        ensures { result ≡ spi_of self.now.bytes.now }
    {
        word_at(self.bytes, 0)
    }

    // Its sequence number.
    pub fn sequence(&self) -> u32
        ensures { result ≡ sequence_of self.now.bytes.now }
    {
        word_at(self.bytes, 4)
    }

    // What the tag covers.
    pub fn covered(&self) -> &'a [u8]
        ensures { result.now ≡ covered_of self.now.bytes.now }
    {
        &self.bytes[..self.bytes.len() - TAG_LEN]
    }

    pub fn tag(&self) -> &'a [u8]
        ensures { result.now ≡ tag_of self.now.bytes.now }
    {
        &self.bytes[self.bytes.len() - TAG_LEN..]
    }

    // The segment, if what follows it is right: next header, pad length and padding.
    #[tactic(auto, unfolding(crate::specs::Opening::unwrapped, crate::specs::Reading::trailer_right))]
    pub fn segment(&self) -> Result<Segment<'a>, Fault>
        ensures { shown result ≡ unwrapped self.now.bytes.now }
    {
        let b = self.bytes;
        let trailer = b.len() - TAIL;
        let end = trailer.saturating_sub(b[trailer] as usize);
        if b[trailer + 1] != UDP
            || !(HEAD + SHORTEST_SEGMENT..=HEAD + LONGEST_SEGMENT).contains(&end)
            || !counts_up(&b[end..trailer])
        {
            return Err(Fault::WrongTrailer(trailer));
        }
        Ok(Segment {
            bytes: &b[HEAD..end],
            place: HEAD,
        })
    }
}

// The 32-bit number from a place on, the highest byte first.
fn word_at(bytes: &[u8], at: usize) -> u32
    requires { at + 4 ≤ length bytes.now }
    ensures { result ≡ word bytes.now at }
{
    u32::from_be_bytes([bytes[at], bytes[at + 1], bytes[at + 2], bytes[at + 3]])
}

// Whether the bytes are 1, 2, 3 and so on.
fn counts_up(pads: &[u8]) -> bool
    ensures { result ≡ bytes_eq pads.now (padding (length pads.now)) }
{
    pads.iter()
        .zip(1..pads.len() + 1)
        .all(|(byte, place)| *byte as usize == place)
}
