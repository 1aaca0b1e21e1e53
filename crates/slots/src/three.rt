// The slots and their moves.
ghost use Rattle.slots.specs.Slots.{at, empty, expired, latest, latest_of, live, put, raised, succeeded};
ghost use Rattle.std.specs.Prelude.{◌≡◌};

use crate::cover::Cover;
use crate::expiring::Expiring;
use crate::slot::Slot;

#[derive(Clone, Copy)]
pub struct Slots<S> {
    pub old: Option<S>,
    pub current: Option<S>,
    pub registration: Option<S>,
}

// Leaves in a slot what stands there at the second t: a set is gone from its expiry on. Where it stands it is not moved, as a tick
// asks every slot of the table.
fn keep_live<S: Expiring + Copy>(slot: &mut Option<S>, t: u32)
    ensures { slot.new ≡ live S.Expiring.end t slot.old }
{
    slot.take_if(|set| set.expiry() <= u64::from(t));
}

// The later of an expiry and a slot's.
fn later<S: Expiring + Copy>(expiry: u64, slot: Option<S>) -> u64
    ensures { result ≡ latest_of S.Expiring.end expiry slot }
{
    slot.map_or(expiry, |set| expiry.max(set.expiry()))
}

// A contract here says `self.entry.now` and `self.exit.now`, since `self.old` is a slot.
impl<S: Expiring + Copy> Slots<S> {
    pub fn new() -> Slots<S>
        ensures { result ≡ empty }
    {
        Slots {
            old: None,
            current: None,
            registration: None,
        }
    }

    pub fn get(&self, slot: Slot) -> Option<S>
        ensures { result ≡ at slot self.now }
    {
        match slot {
            Slot::Old => self.old,
            Slot::Current => self.current,
            Slot::Registration => self.registration,
        }
    }

    pub fn set(&mut self, slot: Slot, held: Option<S>)
        ensures { self.exit.now ≡ put slot held self.entry.now }
    {
        match slot {
            Slot::Old => self.old = held,
            Slot::Current => self.current = held,
            Slot::Registration => self.registration = held,
        }
    }

    // Empties each slot whose set is over at the second t.
    pub fn expire(&mut self, t: u32)
        ensures { self.exit.now ≡ expired S.Expiring.end t self.entry.now }
    {
        keep_live(&mut self.old, t);
        keep_live(&mut self.current, t);
        keep_live(&mut self.registration, t);
    }

    // The latest of an expiry and those in the slots that carry traffic.
    pub fn latest(&self, expiry: u64) -> u64
        ensures { result ≡ latest S.Expiring.end expiry self.now }
    {
        later(later(expiry, self.old), self.current)
    }

    // The moves of a success: the set that covered the opening REGISTER stays as the old one, the registration's
    // set becomes the current one with a new expiry, and the others go.
    pub fn succeed(&mut self, cover: Cover, expiry: u64)
        ensures { self.exit.now ≡ succeeded S.Expiring.lasting cover expiry self.entry.now }
    {
        match cover {
            Cover::Clear => self.old = None,
            Cover::Old => {}
            Cover::Current => self.old = self.current,
        }
        self.current = self.registration;
        if let Some(set) = &mut self.current {
            set.set_expiry(expiry);
        }
        self.registration = None;
    }

    // Raises the current set's expiry, if the new one is later, and answers it.
    pub fn raise_current(&mut self, expiry: u64) -> Option<u64>
        ensures { (self.exit.now, result) ≡ raised S.Expiring.end S.Expiring.lasting expiry self.entry.now }
    {
        let set = self.current.as_mut()?;
        if set.expiry() < expiry {
            set.set_expiry(expiry);
        }
        Some(set.expiry())
    }
}
