// A subscriber's row.
ghost use Rattle.association.specs.Asked.{own_is, pair_is, spi_is};
ghost use Rattle.association.specs.declared.set.Parameters.{Parameters};
ghost use Rattle.registration.specs.Rows.{blank, ended, in_row, in_traffic, passes, pending_pair, slot_for, Says};
ghost use Rattle.std.specs.Fn.{FnReturnsAt};
ghost use Rattle.std.specs.Prelude.{◌≡◌, Bool};

use association::{Address, Pair, Set};
use procedure::Stage;
use slots::{Slot, Slots};

#[derive(Clone, Copy)]
pub struct Row {
    pub(crate) slots: Slots<Set>,
    // Bit i is set where IMPU i is registered.
    pub(crate) mask: u16,
    pub(crate) stage: Stage,
}

// Whether a slot has a set that is such. A match: tried with `is_some_and`, whose goal `returns` does not close.
fn has<F: Fn(&Set) -> bool>(slot: &Option<Set>, is_such: &F) -> bool
    requires { F.IsAlwaysCallable is_such.now }
    ensures { (f : Parameters → Bool) → Says (FnReturnsAt F.Fn is_such.now) f → result ≡ passes f slot.now }
{
    match slot {
        Some(set) => is_such(set),
        None => false,
    }
}

impl Row {
    // A row with nothing in it.
    pub fn new() -> Row
        ensures { result ≡ blank }
    {
        Row {
            slots: Slots::new(),
            mask: 0,
            stage: Stage::None,
        }
    }

    // The lowest slot with a set that is such. A chain of ifs, since with `find` over a list of the slots the goal that the
    // answer is `slot_for` did not close.
    fn slot_where<F: Fn(&Set) -> bool>(&self, is_such: F) -> Option<Slot>
        requires { F.IsAlwaysCallable is_such }
        ensures { (f : Parameters → Bool) → Says (FnReturnsAt F.Fn is_such) f → result ≡ slot_for f self.now }
    {
        if has(&self.slots.old, &is_such) {
            Some(Slot::Old)
        } else if has(&self.slots.current, &is_such) {
            Some(Slot::Current)
        } else if has(&self.slots.registration, &is_such) {
            Some(Slot::Registration)
        } else {
            None
        }
    }

    // Whether a set of the subscriber has this address and port.
    pub fn has_pair(&self, pair: Pair) -> bool
        ensures { result ≡ in_row (pair_is pair.address pair.port) self.now }
    {
        self.slot_where(|set| set.is_at(pair)).is_some()
    }

    // The same, slot 3 left out: a set in slot 1 or 2 is found before one in slot 3.
    pub fn has_pair_in_traffic(&self, pair: Pair) -> bool
        ensures { result ≡ in_traffic (pair_is pair.address pair.port) self.now }
    {
        self.slot_where(|set| set.is_at(pair))
            .is_some_and(|slot| slot != Slot::Registration)
    }

    // Whether a set of the subscriber uses an SPI, on either side.
    pub(crate) fn uses(&self, spi: u32) -> bool
        ensures { result ≡ in_row (spi_is spi) self.now }
    {
        self.slot_where(|set| set.uses(spi)).is_some()
    }

    // The slot whose set packets from this address to this SPI are for.
    pub(crate) fn slot_for(&self, address: Address, spi: u32) -> Option<Slot>
        ensures { result ≡ slot_for (own_is address spi) self.now }
    {
        self.slot_where(|set| set.takes(address, spi))
    }

    // The pair of an opening REGISTER that waits for its challenge.
    pub fn pending_pair(&self) -> Option<Pair>
        ensures { result ≡ pending_pair self.now.stage }
    {
        match self.stage {
            Stage::Offered { procedure, .. } => Some(procedure.pair()),
            Stage::None | Stage::Challenged { .. } | Stage::Answered { .. } => None,
        }
    }

    // Ends the running procedure.
    pub(crate) fn end(&mut self)
        ensures { self.new ≡ ended self.old }
    {
        self.slots.registration = None;
        self.stage = Stage::None;
    }
}
