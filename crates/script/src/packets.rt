// Reading a packet of a script.
//
// What a reader leaves, `rest`, stands in the clauses of each, as it speaks of before and after, and no type does.
ghost use Rattle.script.specs.Fields.{others};
ghost use Rattle.script.specs.Packets.{length_of, packet_by, packet_of, sealed_by, segment_of, sequence_of, source_by, source_of};
ghost use Rattle.script.specs.Reads.{Says};
ghost use Rattle.script.specs.Words.{first_as};
ghost use Rattle.script.specs.declared.refusal.Refusal.TheVariants.{BadLine};
ghost use Rattle.std.specs.Prelude.{◌≡◌, vec_items};
ghost use Rattle.std.specs.Option.{ok_or};

use crate::decimal::read_number;
use crate::fields::{Fields, Separator, cut};
use crate::hex::read_bytes;
use crate::packet::{Packet, Source};
use crate::refusal::Refusal;
use std::alloc::Global;

// A segment that can be sealed.
fn read_segment(heap: Global, text: &[u8]) -> Result<Vec<u8>, Refusal>
    ensures { Says vec_items result (segment_of text.now) }
{
    let bytes = read_bytes(heap, text)?;
    esp::sealed_len(bytes.len()).ok_or(Refusal::BadLine)?;
    Ok(bytes)
}

impl<'a> Fields<'a> {
    // The next field as a sequence number that a packet may carry.
    fn sequence(&mut self) -> Result<u32, Refusal>
        ensures value { result ≡ ok_or (first_as sequence_of self.old) BadLine }
        ensures rest { self.new ≡ others self.old }
    {
        match self.read()? {
            0 => Err(Refusal::BadLine),
            number => Ok(number),
        }
    }

    // The next field as a segment that can be sealed.
    fn segment(&mut self) -> Result<Vec<u8>, Refusal>
        ensures value { Says vec_items result (first_as segment_of self.old) }
        ensures rest { self.new ≡ others self.old }
    {
        read_segment(self.heap, self.expected()?)
    }

    // The next field as a packet.
    pub fn packet(&mut self) -> Result<Packet<Vec<u8>>, Refusal>
        ensures value { Says (packet_by vec_items) result (first_as packet_of self.old) }
        ensures rest { self.new ≡ others self.old }
    {
        read_packet(self.heap, self.expected()?)
    }
}

// What is to be sealed.
fn read_sealed(fields: &mut Fields) -> Result<Source<Vec<u8>>, Refusal>
    ensures { Says (source_by vec_items) result (sealed_by fields.old) }
{
    let to = fields.association()?;
    let number = fields.sequence()?;
    let segment = fields.segment()?;
    fields.end()?;
    Ok(Source::Sealed {
        to,
        number,
        segment,
    })
}

// A packet's bytes, or what is to be sealed.
#[tactic(auto, unfolding(crate::specs::Packets::source_of))]
fn read_source(heap: Global, text: &[u8]) -> Result<Source<Vec<u8>>, Refusal>
    ensures { Says (source_by vec_items) result (source_of text.now) }
{
    match cut(text, b':') {
        (b"seal", Some(rest)) => read_sealed(&mut Fields::new(heap, rest, Separator::Colon)),
        (b"seal", None) => Err(Refusal::BadLine),
        _ => Ok(Source::Bytes(read_bytes(heap, text)?)),
    }
}

// How many bytes the packet will have.
fn source_len(source: &Source<Vec<u8>>) -> usize
    ensures { result ≡ length_of (source_by vec_items source.now) }
{
    match source {
        Source::Bytes(bytes) => bytes.len(),
        Source::Sealed { segment, .. } => esp::sealed_len(segment.len()).unwrap_or(0),
    }
}

// A packet, with a bit flipped or not.
#[tactic(auto, unfolding(crate::specs::Packets::packet_of))]
fn read_packet(heap: Global, text: &[u8]) -> Result<Packet<Vec<u8>>, Refusal>
    ensures { Says (packet_by vec_items) result (packet_of text.now) }
{
    let (text, mark) = cut(text, b'^');
    let source = read_source(heap, text)?;
    let Some(mark) = mark else {
        return Ok(Packet { source, flip: None });
    };
    match read_number(mark, u32::MAX) {
        Some(at) if (at as usize) < source_len(&source) => Ok(Packet {
            source,
            flip: Some(at),
        }),
        _ => Err(Refusal::BadLine),
    }
}
