// Sealing a segment into a packet.
//
// A segment and the area that it goes into stay two parameters: the host lends both, and what a call leaves is said of the
// area alone.
ghost use Rattle.std.specs.Prelude.{◌≡◌, ◌+◌, ◌<◌, ◌≤◌, ◌++◌, length, take, drop, IfOk};
ghost use Rattle.esp.specs.Figures.{PacketFigures};
ghost use Rattle.esp.specs.Opening.{OpensAs};
ghost use Rattle.esp.specs.Packet.{Fewest, covered, pad_count, sealed_length};
ghost use Rattle.esp.specs.Sealing.{laid, sealing};

use crate::faults::Fault;
use crate::layout::{HEAD, LONGEST_SEGMENT, SHORTEST_SEGMENT, TAIL, UDP};
use integrity::{Ik, Integrity};

// Overwrites a part of the area and answers where it ends.
#[tactic(auto, using(std::proofs::lemmas::Slice::overwrites))]
fn put(out: &mut [u8], at: usize, part: &[u8]) -> usize
    requires { at + length part.now ≤ length out.old }
    ensures next { result ≡ at + length part.now }
    ensures after { out.new ≡ take at out.old ++ (part.now ++ drop (at + length part.now) out.old) }
{
    let end = at + part.len();
    out[at..end].copy_from_slice(part);
    end
}

// How much padding follows a segment.
fn pad_len(segment_len: usize) -> usize
    requires { segment_len ≤ 1400 }
    ensures value { result ≡ pad_count segment_len }
    ensures few { result < 4 }
{
    (4 - (segment_len + 2) % 4) % 4
}

// The length of the packet that carries a segment, if one of this length may be sealed.
pub fn sealed_len(segment_len: usize) -> Option<usize>
    ensures value { result ≡ sealed_length segment_len }
    ensures fewest { Fewest segment_len }
    ensures figures { PacketFigures }
{
    (SHORTEST_SEGMENT..=LONGEST_SEGMENT)
        .contains(&segment_len)
        .then(|| segment_len + pad_len(segment_len) + HEAD + TAIL)
}

// Writes all of the packet but the tag.
fn write_covered(spi: u32, number: u32, segment: &[u8], out: &mut [u8]) -> usize
    requires { (length segment.now ≤ 1400) × (length segment.now + pad_count (length segment.now) + 10 ≤ length out.old) }
    ensures end { result ≡ length segment.now + pad_count (length segment.now) + 10 }
    ensures area { out.new ≡ laid (covered spi number segment.now) out.old }
{
    let pads = pad_len(segment.len());
    let end = put(out, 0, &spi.to_be_bytes());
    let end = put(out, end, &number.to_be_bytes());
    let end = put(out, end, segment);
    let end = put(out, end, &[1, 2, 3][..pads]);
    put(out, end, &[pads as u8, UDP])
}

// Seals a segment into the front of an area, under one more than the counter, and answers how many bytes the
// packet has. The counter's last value seals nothing, so that no number is used twice.
#[tactic(auto, unfolding(crate::specs::Sealing::sealing))]
pub fn seal<I: Integrity>(
    ik: &Ik,
    spi: u32,
    counter: &mut u32,
    segment: &[u8],
    out: &mut [u8],
) -> Result<usize, Fault>
    ensures result { result ≡ (sealing I.Integrity.mac ik.now spi counter.old segment.now (length out.old)).result }
    ensures count { counter.new ≡ (sealing I.Integrity.mac ik.now spi counter.old segment.now (length out.old)).counter }
    ensures area { out.new ≡ laid (sealing I.Integrity.mac ik.now spi counter.old segment.now (length out.old)).written out.old }
    ensures wrote { IfOk result (λ n. n ≡ length (sealing I.Integrity.mac ik.now spi counter.old segment.now (length out.old)).written) }
    ensures opens { IfOk result (λ n. OpensAs I.Integrity.mac ik.now spi counter.new segment.now (take n out.new)) }
{
    let len = sealed_len(segment.len()).ok_or(Fault::SegmentLength(segment.len()))?;
    let number = counter.checked_add(1).ok_or(Fault::CounterSpent)?;
    if out.len() < len {
        return Err(Fault::AreaLength(out.len()));
    }
    let end = write_covered(spi, number, segment, out);
    let tag = I::tag(ik, &out[..end]);
    put(out, end, &tag);
    *counter = number;
    Ok(len)
}
