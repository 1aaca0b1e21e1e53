// The calls. That the rows stay the same loan stands in each (`stays`): a type says what holds at one time, and not what
// stays from before a call to after it.
//
// A segment and the area that it goes into stay two parameters: the host lends both, and what a call leaves is said of the
// area alone.
ghost use Rattle.proxy.specs.Machine.{arriving, arriving_wide, challenging, concluding, deregistering, leaves, refreshing, registered, sending, ticked};
ghost use Rattle.proxy.specs.Stated.{state_of};
ghost use Rattle.registration.specs.Receiving.{heard_of};
ghost use Rattle.std.specs.Prelude.{◌≡◌, length};

use crate::proxy::Proxy;
use association::{Address, Pair};
use esp::{PacketReader, Suite};
use integrity::Ik;
use procedure::{Arrived, Chosen, Fault, Message, Offer, Outcome, Sent};
use registration::Origin;
use slots::Cover;

// The last second.
const END_OF_TIME: u32 = 4_000_000_000;

impl Proxy<'_> {
    // Sets the clock, and ends what is over then. Answers the clock.
    #[tactic(auto, unfolding(crate::specs::Machine::ticked, esp::specs::Asking::asked))]
    pub fn tick(&mut self, t: u32) -> Result<u32, Fault>
        ensures machine { (state_of self.new, result) ≡ ticked t (state_of self.old) }
        ensures stays { self.new.rows.ghost_name ≡ self.old.rows.ghost_name }
    {
        if t < self.service.clock || t > END_OF_TIME {
            return Err(Fault::WrongTime);
        }
        self.service.clock = t;
        for row in self.rows.iter_mut() {
            row.expire(t);
        }
        Ok(t)
    }

    // An opening REGISTER in clear. Answers the algorithm and the proxy's SPI.
    #[tactic(auto, unfolding(crate::specs::Machine::registered, esp::specs::Asking::asked))]
    pub fn register(
        &mut self,
        address: Address,
        subscriber: u32,
        offer: Offer,
    ) -> Result<Chosen, Fault>
        ensures machine { (state_of self.new, result) ≡ registered address subscriber offer (state_of self.old) }
        ensures stays { self.new.rows.ghost_name ≡ self.old.rows.ghost_name }
    {
        let i = self.row_of(subscriber)?;
        let origin = Origin {
            service: self.service,
            subscriber: i as u16,
            address,
            taken: self.is_taken(Pair {
                address,
                port: offer.port,
            }),
        };
        let Proxy { rows, .. } = self;
        rows[i].enter(origin, offer, Cover::Clear)
    }

    // The challenge to a subscriber, with the IK that it brings. Answers the bytes written and what they go by.
    #[tactic(auto, unfolding(crate::specs::Machine::challenging, esp::specs::Asking::asked))]
    pub fn challenge<S: Suite>(
        &mut self,
        subscriber: u32,
        ik: &Ik,
        segment: &[u8],
        out: &mut [u8],
    ) -> Result<Sent, Fault>
        ensures machine { (state_of self.new, result, out.new) ≡ leaves (challenging S.Suite.macs subscriber ik.now segment.now (length out.old) (state_of self.old)) out.old }
        ensures stays { self.new.rows.ghost_name ≡ self.old.rows.ghost_name }
    {
        let i = self.row_of(subscriber)?;
        let taken = self.is_taken_for(i);
        let Proxy { rows, service } = self;
        rows[i].challenge::<S>(*service, taken, ik, segment, out)
    }

    // A packet from an address, with what its message is. Answers the subscriber, the slot of the set that it came on
    // and the segment, and to an opening REGISTER also the algorithm and the proxy's SPI.
    #[tactic(auto, unfolding(crate::specs::Machine::arriving, esp::specs::Asking::asked))]
    pub fn arrive<'b, S: Suite>(
        &mut self,
        address: Address,
        packet: &'b [u8],
        message: Message,
    ) -> Result<Arrived<'b>, Fault>
        ensures machine { (state_of self.new, heard_of result) ≡ arriving S.Suite.macs address packet.now message (state_of self.old) }
        ensures stays { self.new.rows.ghost_name ≡ self.old.rows.ghost_name }
        ensures wide { (state_of self.new, heard_of result) ≡ arriving_wide S.Suite.macs address packet.now message (state_of self.old) }
    {
        let spi = PacketReader::new(packet)?.spi();
        let i = self.home_of(spi)?;
        let origin = Origin {
            service: self.service,
            subscriber: i as u16,
            address,
            taken: self.is_taken_by(address, message),
        };
        let Proxy { rows, .. } = self;
        rows[i].receive::<S>(origin, spi, packet, message)
    }

    // The outcome of a subscriber's registration. Answers the bytes written and what they go by.
    #[tactic(auto, unfolding(crate::specs::Machine::concluding, esp::specs::Asking::asked))]
    pub fn outcome<S: Suite>(
        &mut self,
        subscriber: u32,
        outcome: Outcome,
        segment: &[u8],
        out: &mut [u8],
    ) -> Result<Sent, Fault>
        ensures machine { (state_of self.new, result, out.new) ≡ leaves (concluding S.Suite.macs subscriber outcome segment.now (length out.old) (state_of self.old)) out.old }
        ensures stays { self.new.rows.ghost_name ≡ self.old.rows.ghost_name }
    {
        let i = self.row_of(subscriber)?;
        let Proxy { rows, service } = self;
        rows[i].conclude::<S>(*service, outcome, segment, out)
    }

    // A message to a subscriber. Answers the bytes written and what they go by.
    #[tactic(auto, unfolding(crate::specs::Machine::sending, esp::specs::Asking::asked))]
    pub fn send<S: Suite>(
        &mut self,
        subscriber: u32,
        segment: &[u8],
        out: &mut [u8],
    ) -> Result<Sent, Fault>
        ensures machine { (state_of self.new, result, out.new) ≡ leaves (sending S.Suite.macs subscriber segment.now (length out.old) (state_of self.old)) out.old }
        ensures stays { self.new.rows.ghost_name ≡ self.old.rows.ghost_name }
    {
        let i = self.row_of(subscriber)?;
        let Proxy { rows, .. } = self;
        rows[i].send::<S>(segment, out)
    }

    // Raises the expiry of a subscriber's current set. Answers the expiry.
    #[tactic(auto, unfolding(crate::specs::Machine::refreshing, esp::specs::Asking::asked))]
    pub fn refresh(&mut self, subscriber: u32, timer: u32) -> Result<u64, Fault>
        ensures machine { (state_of self.new, result) ≡ refreshing subscriber timer (state_of self.old) }
        ensures stays { self.new.rows.ghost_name ≡ self.old.rows.ghost_name }
    {
        let i = self.row_of(subscriber)?;
        let Proxy { rows, service } = self;
        rows[i].refresh(service.clock, timer)
    }

    // Takes IMPUs from a subscriber's registered ones. Answers how many are left.
    #[tactic(auto, unfolding(crate::specs::Machine::deregistering, esp::specs::Asking::asked))]
    pub fn deregister(&mut self, subscriber: u32, mask: u16) -> Result<u32, Fault>
        ensures machine { (state_of self.new, result) ≡ deregistering subscriber mask (state_of self.old) }
        ensures stays { self.new.rows.ghost_name ≡ self.old.rows.ghost_name }
    {
        let i = self.row_of(subscriber)?;
        let Proxy { rows, .. } = self;
        rows[i].deregister(mask)
    }
}
