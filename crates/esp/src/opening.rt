// Opening a packet.
ghost use Rattle.std.specs.Prelude.{◌≡◌, ℕ, true, List, ◌∷◌, OnOk};
ghost use Rattle.esp.specs.Numbers.{Stands, may_pass};
ghost use Rattle.esp.specs.Opening.{opening, shown};
ghost use Rattle.esp.specs.Reading.{Authentic, number_of as sequence_of};

use crate::faults::Fault;
use crate::layout::TAG_LEN;
use crate::reader::PacketReader;
use crate::segment::Segment;
use crate::window::ReplayWindow;
use integrity::{Ik, Integrity};

// Opens a packet for an SPI, and answers its segment as a part of it. The number is recorded as soon as the tag
// is known to be right, and stays recorded where the packet is refused after that.
#[tactic(auto, unfolding(crate::specs::Opening::opening))]
pub fn open<'a, I: Integrity>(
    ik: &Ik,
    spi: u32,
    window: &mut ReplayWindow,
    packet: &'a [u8],
) -> Result<Segment<'a>, Fault>
    ensures result { shown result ≡ (opening I.Integrity.mac ik.now spi window.old packet.now).result }
    ensures window { window.new ≡ (opening I.Integrity.mac ik.now spi window.old packet.now).window }
    ensures once { (ns : List ℕ) → Stands window.old ns → OnOk result ((may_pass ns (sequence_of packet.now) ≡ true) × Stands window.new (sequence_of packet.now ∷ ns)) }
    ensures authentic { OnOk result (Authentic I.Integrity.mac ik.now packet.now) }
{
    let reader = PacketReader::new(packet)?;
    if reader.spi() != spi {
        return Err(Fault::OtherSpi);
    }
    let number = reader.sequence();
    if !window.passes(number) {
        return Err(Fault::Replayed);
    }
    if !integrity::verify::<I>(ik, reader.covered(), reader.tag()) {
        return Err(Fault::WrongTag(packet.len() - TAG_LEN));
    }
    window.record(number);
    reader.segment()
}
