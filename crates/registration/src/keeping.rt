// Time, refreshing and deregistering, on one row.
ghost use Rattle.registration.specs.Keeping.{aged, deregistered, expiry_after, refreshed, timer_right};
ghost use Rattle.std.specs.Prelude.{◌≡◌};

use crate::row::Row;
use procedure::{Fault, Stage};

const LONGEST_TIMER: u32 = 1_000_000;

// How long a set outlives the timer that the core gave, so that a handset that re-registers in time has one.
const GRACE: u64 = 30;

// How long the next message of a procedure is waited for.
pub(crate) const PATIENCE: u64 = 240;

pub(crate) fn timer_right(timer: u32) -> bool
    ensures { result ≡ timer_right timer }
{
    (1..=LONGEST_TIMER).contains(&timer)
}

pub(crate) fn expiry_after(clock: u32, timer: u32) -> u64
    ensures { result ≡ expiry_after clock timer }
{
    u64::from(clock) + u64::from(timer) + GRACE
}

impl Row {
    // What the second t ends.
    #[tactic(auto, unfolding(crate::specs::Keeping::aged))]
    pub fn expire(&mut self, t: u32)
        ensures { self.new ≡ aged t self.old }
    {
        self.slots.expire(t);
        let over = match self.stage {
            Stage::None => false,
            Stage::Offered { deadline, .. } => deadline <= u64::from(t),
            Stage::Challenged { .. } | Stage::Answered { .. } => self.slots.registration.is_none(),
        };
        if over {
            self.end();
        }
    }

    // Raises the current set's expiry to what a timer gives, if that is later, and answers the expiry.
    #[tactic(auto, unfolding(crate::specs::Keeping::refreshed, esp::specs::Asking::asked))]
    pub fn refresh(&mut self, clock: u32, timer: u32) -> Result<u64, Fault>
        ensures { (self.new, result) ≡ refreshed clock timer self.old }
    {
        if !timer_right(timer) {
            return Err(Fault::BadTerms(self.stage.phase()));
        }
        let raised = self.slots.raise_current(expiry_after(clock, timer));
        Ok(raised.ok_or(association::Fault::NoTraffic)?)
    }

    // Takes IMPUs from the registered ones, and answers how many are left.
    #[tactic(auto, unfolding(crate::specs::Keeping::deregistered, esp::specs::Asking::asked))]
    pub fn deregister(&mut self, mask: u16) -> Result<u32, Fault>
        ensures { (self.new, result) ≡ deregistered mask self.old }
    {
        if self.mask == 0 {
            return Err(association::Fault::NoImpu.into());
        }
        self.mask &= !mask;
        let left = self.mask.count_ones();
        if self.mask == 0 {
            *self = Row::new();
        }
        Ok(left)
    }
}
