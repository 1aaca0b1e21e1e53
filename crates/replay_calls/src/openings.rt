// Opening a proxy as an `open` line asks for it.
ghost use Rattle.std.specs.Prelude.{◌≡◌, min};
ghost use Rattle.product.specs.Product.{state_in};
ghost use Rattle.replay_calls.specs.Calls.{list_of};
ghost use Rattle.proxy.specs.Machine.{opened};

use calls::Opening;
use product::Pcscf;
use proxy::MOST;
use registration::Row;

// A proxy that serves nobody: what stands before the first `open` line.
pub const NOBODY: Opening = Opening {
    rows: 0,
    port: 0,
    first: 0,
    second: None,
};

// How many rows to lend the proxy: no more than it uses.
pub fn room(opening: &Opening) -> usize
    ensures { result ≡ min opening.now.rows 4096 }
{
    (opening.rows as usize).min(MOST)
}

pub fn open<'a>(opening: &Opening, rows: &'a mut [Row]) -> Pcscf<'a>
    ensures { state_in result ≡ opened rows.old opening.now.port (list_of opening.now.first opening.now.second) }
{
    match opening.second {
        None => Pcscf::open(rows, opening.port, &[opening.first]),
        Some(second) => Pcscf::open(rows, opening.port, &[opening.first, second]),
    }
}
