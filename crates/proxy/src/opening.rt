// Opening a proxy.
ghost use Rattle.proxy.specs.Figures.{Figures};
ghost use Rattle.proxy.specs.Machine.{emptied, opened};
ghost use Rattle.proxy.specs.State.{count_of};
ghost use Rattle.proxy.specs.Stated.{state_of};
ghost use Rattle.std.specs.Prelude.{◌≡◌, map};

use crate::proxy::Proxy;
use procedure::{Preference, Service};
use registration::Row;

// At most so many subscribers.
pub const MOST: usize = 4096;

// Where SIP in clear arrives.
const SIP_PORT: u16 = 5060;

// Empties all rows.
fn clear(rows: &mut [Row])
    ensures { rows.new ≡ map emptied rows.old }
{
    rows.fill(Row::new());
}

impl<'a> Proxy<'a> {
    // A proxy over some rows, with a protected port and a list of algorithm numbers, the preferred one first. All rows
    // are emptied. With a port or a list that it does not take the proxy has no subscriber.
    #[tactic(auto, using(crate::proofs::Worked::figures), unfolding(crate::specs::Machine::opened))]
    pub fn open(rows: &'a mut [Row], port: u16, algorithms: &[u8]) -> Proxy<'a>
        ensures machine { state_of result ≡ opened rows.old port algorithms.now }
        ensures lent { result.rows.ghost_name ≡ rows.entry.ghost_name }
        ensures figures { Figures }
    {
        clear(rows);
        let algorithms = if port == 0 || port == SIP_PORT {
            None
        } else {
            Preference::of(algorithms)
        };
        Proxy {
            rows,
            service: Service {
                clock: 0,
                port,
                algorithms,
            },
        }
    }

    // How many subscribers there are.
    pub fn count(&self) -> usize
        ensures { result ≡ count_of (state_of self.now) }
    {
        if self.service.serves() {
            self.rows.len().min(MOST)
        } else {
            0
        }
    }
}
