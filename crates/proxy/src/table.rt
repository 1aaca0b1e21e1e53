// What a call asks of the whole table. A row is named by its place, as the rows are lent in one slice and changed there.
ghost use Rattle.association.specs.Asked.{pair_is};
ghost use Rattle.proxy.specs.Machine.{home_of, homed, taken, taken_by, taken_for};
ghost use Rattle.proxy.specs.State.{count_of, in_table, row_of};
ghost use Rattle.proxy.specs.Stated.{state_of};
ghost use Rattle.std.specs.Prelude.{◌≡◌, ◌<◌, true, false, length, set, MatchResult, nat_lt, slice_set};
ghost use Rattle.registration.specs.Rows.{ended, pending_pair};
ghost use Rattle.procedure.specs.declared.faults.Fault.TheVariants.{Association, NoSubscriber};
ghost use Rattle.association.specs.declared.faults.Fault.TheVariants.{NoSet};

use crate::proxy::Proxy;
use association::{Address, Pair};
use procedure::{Fault, Message};
use registration::{BLOCK, FIRST_BLOCK};

impl Proxy<'_> {
    // The place of a subscriber's row, if there is such a subscriber.
    pub(crate) fn row_of(&self, subscriber: u32) -> Result<usize, Fault>
        ensures { MatchResult result (λ i. (i ≡ subscriber) × (nat_lt subscriber (count_of (state_of self.now)) ≡ true) × (i < length self.now.rows.now) × (i < 4096)) (λ e. (e ≡ NoSubscriber) × (nat_lt subscriber (count_of (state_of self.now)) ≡ false)) }
    {
        if (subscriber as usize) < self.count() {
            Ok(subscriber as usize)
        } else {
            Err(Fault::NoSubscriber)
        }
    }

    // The place of the row that can have the set of an SPI, computed from the SPI.
    pub(crate) fn home_of(&self, spi: u32) -> Result<usize, Fault>
        ensures { MatchResult result (λ i. (i ≡ home_of spi) × (homed spi (state_of self.now) ≡ true) × (i < length self.now.rows.now) × (i < 4096)) (λ e. (e ≡ Association NoSet) × (homed spi (state_of self.now) ≡ false)) }
    {
        let past = spi
            .checked_sub(FIRST_BLOCK)
            .ok_or(association::Fault::NoSet)?;
        let home = (past / BLOCK) as usize;
        if home < self.count() {
            Ok(home)
        } else {
            Err(association::Fault::NoSet.into())
        }
    }

    // Whether a set of the table has this address and port.
    pub(crate) fn is_taken(&self, pair: Pair) -> bool
        ensures { result ≡ taken pair.address pair.port (state_of self.now) }
    {
        self.rows.iter().any(|row| row.has_pair(pair))
    }

    // The same, slot 3 of the row at a place left out.
    fn is_taken_beside(&self, place: usize, pair: Pair) -> bool
        ensures { result ≡ in_table (pair_is pair.address pair.port) (slice_set self.now.rows.now place (ended (row_of (state_of self.now) place))) }
    {
        self.rows.iter().enumerate().any(|(i, row)| {
            if i == place {
                row.has_pair_in_traffic(pair)
            } else {
                row.has_pair(pair)
            }
        })
    }

    // Whether the pair of an opening REGISTER that waits for its challenge is taken outside slot 3 of its row.
    pub(crate) fn is_taken_for(&self, place: usize) -> bool
        ensures { place < length self.now.rows.now → result ≡ taken_for (pending_pair (row_of (state_of self.now) place).stage) place (state_of self.now) }
    {
        // A match: tried with `is_some_and` and a closure, whose goal `returns` does not close.
        match self.rows.get(place).and_then(|row| row.pending_pair()) {
            None => false,
            Some(pair) => self.is_taken_beside(place, pair),
        }
    }

    // Whether the pair that an arriving message offers is taken.
    pub(crate) fn is_taken_by(&self, address: Address, message: Message) -> bool
        ensures { result ≡ taken_by address message (state_of self.now) }
    {
        match message {
            Message::Opening { offer, .. } => self.is_taken(Pair {
                address,
                port: offer.port,
            }),
            Message::Response { .. } | Message::Ordinary { .. } => false,
        }
    }
}
