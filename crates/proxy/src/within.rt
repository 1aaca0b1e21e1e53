// The calls that send, with an output area that is given by its length: they answer, write and refuse as into an area of
// that length, of which no more than the longest packet is ever needed. Each is two lines: one function that took the call
// as a closure would need a clause, longer than these, on what the closure leaves of the area that it is lent.
// The array has the length of the longest packet, which its type can say by a figure alone. `stays` is in each for the reason
// that calls.rt gives.
//
// A segment and the area that it goes into stay two parameters: the host lends both, and what a call leaves is said of the
// area alone.
ghost use Rattle.std.specs.Prelude.{◌≡◌, ◌≤◌, take, IfOk};
ghost use Rattle.proxy.specs.Machine.{answered, challenging, concluding, sending};
ghost use Rattle.proxy.specs.Stated.{state_of};

use crate::proxy::Proxy;
use esp::{LONGEST_PACKET, Suite};
use integrity::Ik;
use procedure::{Fault, Outcome, Sent};

impl Proxy<'_> {
    // The challenge to a subscriber, as into an area of `area` bytes.
    pub fn challenge_within<S: Suite>(
        &mut self,
        subscriber: u32,
        ik: &Ik,
        segment: &[u8],
        area: u32,
        out: &mut [u8; 1424],
    ) -> Result<Sent, Fault>
        ensures machine { (state_of self.new, result) ≡ answered (challenging S.Suite.macs subscriber ik.now segment.now area (state_of self.old)) }
        ensures wrote { IfOk result (λ s. (s.bytes ≤ 1424) × (take s.bytes out.new ≡ (challenging S.Suite.macs subscriber ik.now segment.now area (state_of self.old)).written)) }
        ensures stays { self.new.rows.ghost_name ≡ self.old.rows.ghost_name }
    {
        let room = LONGEST_PACKET.min(area as usize);
        self.challenge::<S>(subscriber, ik, segment, &mut out[0..room])
    }

    // The outcome of a registration, as into an area of `area` bytes.
    pub fn outcome_within<S: Suite>(
        &mut self,
        subscriber: u32,
        outcome: Outcome,
        segment: &[u8],
        area: u32,
        out: &mut [u8; 1424],
    ) -> Result<Sent, Fault>
        ensures machine { (state_of self.new, result) ≡ answered (concluding S.Suite.macs subscriber outcome segment.now area (state_of self.old)) }
        ensures wrote { IfOk result (λ s. (s.bytes ≤ 1424) × (take s.bytes out.new ≡ (concluding S.Suite.macs subscriber outcome segment.now area (state_of self.old)).written)) }
        ensures stays { self.new.rows.ghost_name ≡ self.old.rows.ghost_name }
    {
        let room = LONGEST_PACKET.min(area as usize);
        self.outcome::<S>(subscriber, outcome, segment, &mut out[0..room])
    }

    // A message to a subscriber, as into an area of `area` bytes.
    pub fn send_within<S: Suite>(
        &mut self,
        subscriber: u32,
        segment: &[u8],
        area: u32,
        out: &mut [u8; 1424],
    ) -> Result<Sent, Fault>
        ensures machine { (state_of self.new, result) ≡ answered (sending S.Suite.macs subscriber segment.now area (state_of self.old)) }
        ensures wrote { IfOk result (λ s. (s.bytes ≤ 1424) × (take s.bytes out.new ≡ (sending S.Suite.macs subscriber segment.now area (state_of self.old)).written)) }
        ensures stays { self.new.rows.ghost_name ≡ self.old.rows.ghost_name }
    {
        let room = LONGEST_PACKET.min(area as usize);
        self.send::<S>(subscriber, segment, &mut out[0..room])
    }
}
