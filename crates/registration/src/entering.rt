// An opening REGISTER on one row.
ghost use Rattle.registration.specs.Entering.{entered, in_use, proxy_spi};
ghost use Rattle.std.specs.Prelude.{◌≡◌};

use crate::blocks::{BLOCK, FIRST_BLOCK};
use crate::keeping::PATIENCE;
use crate::origin::Origin;
use crate::row::Row;
use procedure::{Chosen, Fault, Offer, Preference, Procedure, Stage};
use slots::Cover;

impl Row {
    // Whether an SPI is the offered one or a set's.
    fn in_use(&self, offered: u32, spi: u32) -> bool
        ensures { result ≡ in_use offered self.now spi }
    {
        spi == offered || self.uses(spi)
    }

    // The lowest SPI of the subscriber's block that is not in use. A late packet of a set that stands must not
    // meet a new set.
    fn proxy_spi(&self, subscriber: u16, offered: u32) -> u32
        ensures { result ≡ proxy_spi subscriber offered self.now }
    {
        let first = FIRST_BLOCK + BLOCK * u32::from(subscriber);
        let last = first + (BLOCK - 1);
        (first..last)
            .find(|spi| !self.in_use(offered, *spi))
            .unwrap_or(last)
    }

    // Begins a procedure, in place of one that runs.
    #[tactic(auto, unfolding(crate::specs::Entering::entered, esp::specs::Asking::asked))]
    pub fn enter(&mut self, origin: Origin, offer: Offer, cover: Cover) -> Result<Chosen, Fault>
        ensures { (self.new, result) ≡ entered origin.service origin.subscriber origin.taken origin.address offer cover self.old }
    {
        if !offer.is_right() {
            return Err(Fault::BadOffer(self.stage.phase()));
        }
        let algorithm = Preference::common(origin.service.algorithms, &offer).ok_or(
            Fault::NoAlgorithm(self.stage.phase()),
        )?;
        if self.uses(offer.spi) {
            return Err(Fault::SpiInUse(self.stage.phase()));
        }
        if origin.taken {
            return Err(Fault::PairInUse(self.stage.phase()));
        }
        let spi = self.proxy_spi(origin.subscriber, offer.spi);
        self.stage = Stage::Offered {
            procedure: Procedure {
                offer,
                address: origin.address,
                algorithm,
                own_spi: spi,
                cover,
            },
            deadline: u64::from(origin.service.clock) + PATIENCE,
        };
        Ok(Chosen { algorithm, spi })
    }
}
