// The rows, and what the work on them depends on.
ghost use Rattle.proxy.specs.Housing.{Housed, housed_prop};

use procedure::Service;
use registration::Row;

#[derive(Drop)]
pub struct Proxy<'a> {
    // Row s is subscriber s's.
    pub(crate) rows: &'a mut [Row],
    pub(crate) service: Service,
    // Every set stands in the row of the block that its proxy's SPI is from, so that a packet's row is computed from its
    // SPI.
    pub ghost housed: { Housed (record { rows = rows.now; service = service }) } by { housed_prop (record { rows = rows.now; service = service }) },
}
