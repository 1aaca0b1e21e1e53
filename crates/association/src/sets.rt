// What a set seals and opens, and what it is known by.
//
// A segment and the area that it goes into stay two parameters: the host lends both, and what a call leaves is said of the
// area alone.
ghost use Rattle.association.specs.Asked.{fresh, own_is, pair_is, spi_is};
ghost use Rattle.association.specs.Opening.{opened_by, seen};
ghost use Rattle.association.specs.Sealing.{leaves, sealed_by};
ghost use Rattle.std.specs.Prelude.{◌≡◌, length};

use crate::address::{Address, Pair};
use crate::faults::Fault;
use crate::ports::{destination_port, source_port};
use crate::set::{Parameters, Set};
use esp::{ReplayWindow, Segment, Suite};
use slots::Slot;

impl Set {
    // A set that has sent and taken nothing.
    pub fn new(parameters: Parameters, expiry: u64) -> Set
        ensures { result ≡ fresh parameters expiry }
    {
        Set {
            parameters,
            expiry,
            sent: 0,
            window: ReplayWindow::new(),
        }
    }

    // Whether it is a handset's at this address and port.
    pub fn is_at(&self, pair: Pair) -> bool
        ensures { result ≡ pair_is pair.address pair.port self.now.parameters }
    {
        self.parameters.address == pair.address && self.parameters.port == pair.port
    }

    // Whether packets from this address to this SPI are its own.
    pub fn takes(&self, address: Address, spi: u32) -> bool
        ensures { result ≡ own_is address spi self.now.parameters }
    {
        self.parameters.address == address && self.parameters.own_spi == spi
    }

    // Whether an SPI is one of its two.
    pub fn uses(&self, spi: u32) -> bool
        ensures { result ≡ spi_is spi self.now.parameters }
    {
        self.parameters.spi == spi || self.parameters.own_spi == spi
    }

    // Seals a segment for the handset. The set stands in `slot`.
    #[tactic(auto, unfolding(crate::specs::Sealing::sealed_by, esp::specs::Asking::asked))]
    pub fn seal<S: Suite>(
        &mut self,
        slot: Slot,
        segment: &[u8],
        out: &mut [u8],
    ) -> Result<usize, Fault>
        ensures { (self.new, result, out.new) ≡ leaves (sealed_by S.Suite.macs slot segment.now (length out.old) self.old) out.old }
    {
        esp::sealed_len(segment.len()).ok_or(esp::Fault::SegmentLength(segment.len()))?;
        if destination_port(segment) != self.parameters.port {
            return Err(Fault::SendingPort);
        }
        if self.sent >= u32::MAX {
            return Err(Fault::CounterSpent(slot));
        }
        Ok(S::seal(&self.parameters.outbound(), &mut self.sent, segment, out)?)
    }

    // Opens a packet from the handset to the protected port.
    #[tactic(auto, unfolding(crate::specs::Opening::opened_by, esp::specs::Asking::asked))]
    pub fn open<'a, S: Suite>(&mut self, port: u16, packet: &'a [u8]) -> Result<Segment<'a>, Fault>
        ensures { (self.new, seen result) ≡ opened_by S.Suite.macs port packet.now self.old }
    {
        let segment = S::open(&self.parameters.inbound(), &mut self.window, packet)?;
        if source_port(segment.bytes) != self.parameters.port
            || destination_port(segment.bytes) != port
        {
            return Err(Fault::ArrivingPorts);
        }
        Ok(segment)
    }
}
