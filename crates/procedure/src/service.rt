// What the work on a row depends on besides the row.
ghost use Rattle.procedure.specs.Offers.{common, listed, serves};
ghost use Rattle.std.specs.Prelude.{◌≡◌};

use crate::offer::Offer;
use integrity::Algorithm;

// The algorithms that the proxy takes, the preferred one first.
#[derive(Clone, Copy, PartialEq, Eq, Debug)]
pub enum Preference {
    Only(Algorithm),
    Both(Algorithm, Algorithm),
}

#[derive(Clone, Copy, PartialEq, Eq, Debug)]
pub struct Service {
    // The second that the last tick set.
    pub clock: u32,
    // The port at which protected segments arrive.
    pub port: u16,
    // None: the proxy was opened with a list or a port that it does not take, and serves nobody.
    pub algorithms: Option<Preference>,
}

impl Service {
    // Whether there is an algorithm.
    pub fn serves(&self) -> bool
        ensures { result ≡ serves self.now.algorithms }
    {
        self.algorithms.is_some()
    }
}

impl Preference {
    // The preference that a list of algorithm numbers says: one or two different ones, each 1 or 2.
    pub fn of(list: &[u8]) -> Option<Preference>
        ensures { result ≡ listed list.now }
    {
        match list {
            [a] => Some(Preference::Only(Algorithm::try_from(*a).ok()?)),
            [a, b] if a != b => Some(Preference::Both(
                Algorithm::try_from(*a).ok()?,
                Algorithm::try_from(*b).ok()?,
            )),
            _ => None,
        }
    }

    // The first of a proxy's own list that an offer has; none where the proxy has no list.
    pub fn common(list: Option<Preference>, offer: &Offer) -> Option<Algorithm>
        ensures { result ≡ common list offer.now }
    {
        match list? {
            Preference::Only(a) => offer.has(a).then_some(a),
            Preference::Both(a, b) => { offer.has(a).then_some(a).or(offer.has(b).then_some(b)) }
        }
    }
}
