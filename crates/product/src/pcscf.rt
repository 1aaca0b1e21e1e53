// The proxy over the product's algorithms. Each call is the proxy's, which docs/machine.md describes. Each is forwarded, since
// each contract here names the product's own two algorithms, and each forward has a must-fail edit or a clause that hangs on
// that. The forms `.._within` are forwarded too: within.rt of proxy says why there are three, and why an array.
//
// A segment and the area that it goes into stay two parameters: the host lends both, and what a call leaves is said of the
// area alone.
ghost use Rattle.std.specs.Prelude.{◌≡◌, ◌≤◌, length, take, IfOk};
ghost use Rattle.proxy.specs.Machine.{answered, arriving, arriving_wide, challenging, concluding, deregistering, leaves, opened, refreshing, registered, sending, ticked};
ghost use Rattle.proxy.specs.Housing.{Housed, housed_prop};
ghost use Rattle.proxy.specs.State.{count_of};
ghost use Rattle.proxy.specs.Stated.{state_of};
ghost use Rattle.registration.specs.Receiving.{heard_of};

use crate::packets::Hmacs;
use association::Address;
use integrity::Ik;
use procedure::{Arrived, Chosen, Fault, Message, Offer, Outcome, Sent};
use proxy::Proxy;
use registration::Row;

#[derive(Drop)]
pub struct Pcscf<'a> {
    proxy: Proxy<'a>,
    // Every set stands in the row of its block, so that who holds the product can say so too.
    pub ghost housed: { Housed (state_of proxy) } by { housed_prop (state_of proxy) },
}

impl<'a> Pcscf<'a> {
    ghost use Rattle.product.specs.Product.{macs, state_in};

    // Opens a proxy over some rows, with its protected port and its algorithms by number, the preferred one first.
    pub fn open(rows: &'a mut [Row], port: u16, algorithms: &[u8]) -> Pcscf<'a>
        ensures machine { state_in result ≡ opened rows.old port algorithms.now }
    {
        Pcscf {
            proxy: Proxy::open(rows, port, algorithms),
        }
    }

    // How many subscribers there are.
    pub fn count(&self) -> usize
        ensures { result ≡ count_of (state_in self.now) }
    {
        self.proxy.count()
    }

    // Sets the clock, and ends what is over then.
    pub fn tick(&mut self, t: u32) -> Result<u32, Fault>
        ensures machine { (state_in self.new, result) ≡ ticked t (state_in self.old) }
    {
        self.proxy.tick(t)
    }

    // An opening REGISTER in clear.
    pub fn register(
        &mut self,
        address: Address,
        subscriber: u32,
        offer: Offer,
    ) -> Result<Chosen, Fault>
        ensures machine { (state_in self.new, result) ≡ registered address subscriber offer (state_in self.old) }
    {
        self.proxy.register(address, subscriber, offer)
    }

    // The challenge to a subscriber, with the IK that it brings.
    pub fn challenge(
        &mut self,
        subscriber: u32,
        ik: &Ik,
        segment: &[u8],
        out: &mut [u8],
    ) -> Result<Sent, Fault>
        ensures machine { (state_in self.new, result, out.new) ≡ leaves (challenging macs subscriber ik.now segment.now (length out.old) (state_in self.old)) out.old }
    {
        self.proxy.challenge::<Hmacs>(subscriber, ik, segment, out)
    }

    // The same as into an area of `area` bytes.
    pub fn challenge_within(
        &mut self,
        subscriber: u32,
        ik: &Ik,
        segment: &[u8],
        area: u32,
        out: &mut [u8; 1424],
    ) -> Result<Sent, Fault>
        ensures machine { (state_in self.new, result) ≡ answered (challenging macs subscriber ik.now segment.now area (state_in self.old)) }
        ensures wrote { IfOk result (λ s. (s.bytes ≤ 1424) × (take s.bytes out.new ≡ (challenging macs subscriber ik.now segment.now area (state_in self.old)).written)) }
    {
        self.proxy
            .challenge_within::<Hmacs>(subscriber, ik, segment, area, out)
    }

    // A packet from an address, with what its message is.
    pub fn arrive<'b>(
        &mut self,
        address: Address,
        packet: &'b [u8],
        message: Message,
    ) -> Result<Arrived<'b>, Fault>
        ensures machine { (state_in self.new, heard_of result) ≡ arriving macs address packet.now message (state_in self.old) }
        ensures wide { (state_in self.new, heard_of result) ≡ arriving_wide macs address packet.now message (state_in self.old) }
    {
        self.proxy.arrive::<Hmacs>(address, packet, message)
    }

    // The outcome of a subscriber's registration.
    pub fn outcome(
        &mut self,
        subscriber: u32,
        outcome: Outcome,
        segment: &[u8],
        out: &mut [u8],
    ) -> Result<Sent, Fault>
        ensures machine { (state_in self.new, result, out.new) ≡ leaves (concluding macs subscriber outcome segment.now (length out.old) (state_in self.old)) out.old }
    {
        self.proxy
            .outcome::<Hmacs>(subscriber, outcome, segment, out)
    }

    // The same as into an area of `area` bytes.
    pub fn outcome_within(
        &mut self,
        subscriber: u32,
        outcome: Outcome,
        segment: &[u8],
        area: u32,
        out: &mut [u8; 1424],
    ) -> Result<Sent, Fault>
        ensures machine { (state_in self.new, result) ≡ answered (concluding macs subscriber outcome segment.now area (state_in self.old)) }
        ensures wrote { IfOk result (λ s. (s.bytes ≤ 1424) × (take s.bytes out.new ≡ (concluding macs subscriber outcome segment.now area (state_in self.old)).written)) }
    {
        self.proxy
            .outcome_within::<Hmacs>(subscriber, outcome, segment, area, out)
    }

    // A message to a subscriber.
    pub fn send(&mut self, subscriber: u32, segment: &[u8], out: &mut [u8]) -> Result<Sent, Fault>
        ensures machine { (state_in self.new, result, out.new) ≡ leaves (sending macs subscriber segment.now (length out.old) (state_in self.old)) out.old }
    {
        self.proxy.send::<Hmacs>(subscriber, segment, out)
    }

    // The same as into an area of `area` bytes.
    pub fn send_within(
        &mut self,
        subscriber: u32,
        segment: &[u8],
        area: u32,
        out: &mut [u8; 1424],
    ) -> Result<Sent, Fault>
        ensures machine { (state_in self.new, result) ≡ answered (sending macs subscriber segment.now area (state_in self.old)) }
        ensures wrote { IfOk result (λ s. (s.bytes ≤ 1424) × (take s.bytes out.new ≡ (sending macs subscriber segment.now area (state_in self.old)).written)) }
    {
        self.proxy
            .send_within::<Hmacs>(subscriber, segment, area, out)
    }

    // Raises the expiry of a subscriber's current set.
    pub fn refresh(&mut self, subscriber: u32, timer: u32) -> Result<u64, Fault>
        ensures machine { (state_in self.new, result) ≡ refreshing subscriber timer (state_in self.old) }
    {
        self.proxy.refresh(subscriber, timer)
    }

    // Takes IMPUs from a subscriber's registered ones.
    pub fn deregister(&mut self, subscriber: u32, mask: u16) -> Result<u32, Fault>
        ensures machine { (state_in self.new, result) ≡ deregistering subscriber mask (state_in self.old) }
    {
        self.proxy.deregister(subscriber, mask)
    }
}
