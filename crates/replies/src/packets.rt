// Packets as a script gives them.
ghost use Rattle.replies.specs.Packets.{packet_bytes, packet_of, sealing_to, source_bytes};
ghost use Rattle.script.specs.Packets.{packet_by, source_by};
ghost use Rattle.std.specs.Prelude.{◌≡◌, IfOk, vec_items};
ghost use Rattle.std.specs.Result.{result_map_both};

use esp::{Association, Fault, LONGEST_PACKET};
use script::{Packet, Source};
use std::alloc::{AllocError, Global};

// Seals a segment into a fresh packet, as into an area of `area` bytes, of which no more than the longest packet is ever needed.
pub fn seal(
    heap: Global,
    to: &Association,
    counter: &mut u32,
    segment: &[u8],
    area: u32,
) -> Result<Result<Vec<u8>, Fault>, AllocError>
    ensures { IfOk result (λ r. (result_map_both vec_items (λ e. e) r ≡ packet_of (sealing_to to.now counter.old segment.now area)) × (counter.new ≡ (sealing_to to.now counter.old segment.now area).counter)) }
{
    let mut packet = vec![in heap; 0; LONGEST_PACKET.min(area as usize)]?;
    // A `match`: under `map` the goal that the packet that came out is `packet_of` of the sealing did not close.
    match product::seal(to, counter, segment, packet.as_mut_slice()) {
        Ok(n) => {
            packet.truncate(n);
            Ok(Ok(packet))
        }
        Err(fault) => Ok(Err(fault)),
    }
}

fn source_bytes(heap: Global, source: Source<Vec<u8>>) -> Result<Vec<u8>, AllocError>
    ensures { IfOk result (λ v. v.items ≡ source_bytes (source_by vec_items source)) }
{
    match source {
        Source::Bytes(bytes) => Ok(bytes),
        Source::Sealed {
            to,
            number,
            segment,
        } => {
            let mut counter = number.saturating_sub(1);
            let packet = seal(
                heap,
                &to,
                &mut counter,
                segment.as_slice(),
                LONGEST_PACKET as u32,
            )?;
            Ok(packet.unwrap_or(Vec::new(heap)))
        }
    }
}

// A packet's bytes.
pub fn packet_bytes(heap: Global, packet: Packet<Vec<u8>>) -> Result<Vec<u8>, AllocError>
    ensures { IfOk result (λ v. v.items ≡ packet_bytes (packet_by vec_items packet)) }
{
    let Packet { source, flip } = packet;
    let mut bytes = source_bytes(heap, source)?;
    if let Some(at) = flip {
        if let Some(byte) = bytes.get_mut(at as usize) {
            *byte ^= 1;
        }
    }
    Ok(bytes)
}
