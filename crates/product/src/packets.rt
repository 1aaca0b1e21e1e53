// The packet layer over the product's algorithms. `tag`, `seal` and `open` are forwarded, since each contract here names the
// product's own two algorithms, and each forward has a must-fail edit or a clause that hangs on that.
//
// A segment and the area that it goes into stay two parameters: the host lends both, and what a call leaves is said of the
// area alone.
ghost use Rattle.esp.specs.Opening.{opening, shown};
ghost use Rattle.esp.specs.Sealing.{laid, sealing};
ghost use Rattle.integrity.specs.Algorithms.{mac_by};
ghost use Rattle.product.specs.Product.{macs};
ghost use Rattle.std.specs.Prelude.{◌≡◌, length, take, IfOk};

use esp::{Association, Fault, ReplayWindow, Segment, Suite};
use hmac::{HmacMd5, HmacSha1};
use integrity::{Algorithm, Ik, Tag};

// The product's two algorithms: 1 is HMAC-MD5-96, 2 is HMAC-SHA-1-96.
pub type Hmacs = (HmacMd5, HmacSha1);

pub fn tag(algorithm: Algorithm, ik: &Ik, text: &[u8]) -> Tag
    ensures { result ≡ mac_by macs algorithm ik.now (take 4096 text.now) }
{
    Hmacs::tag(algorithm, ik, text)
}

// Seals a segment into the front of an area.
pub fn seal(
    to: &Association,
    counter: &mut u32,
    segment: &[u8],
    out: &mut [u8],
) -> Result<usize, Fault>
    ensures result { result ≡ (sealing (mac_by macs to.now.algorithm) to.now.ik to.now.spi counter.old segment.now (length out.old)).result }
    ensures count { counter.new ≡ (sealing (mac_by macs to.now.algorithm) to.now.ik to.now.spi counter.old segment.now (length out.old)).counter }
    ensures area { out.new ≡ laid (sealing (mac_by macs to.now.algorithm) to.now.ik to.now.spi counter.old segment.now (length out.old)).written out.old }
    ensures wrote { IfOk result (λ n. n ≡ length (sealing (mac_by macs to.now.algorithm) to.now.ik to.now.spi counter.old segment.now (length out.old)).written) }
{
    Hmacs::seal(to, counter, segment, out)
}

// Opens a packet, and answers its segment as a part of it.
pub fn open<'a>(
    from: &Association,
    window: &mut ReplayWindow,
    packet: &'a [u8],
) -> Result<Segment<'a>, Fault>
    ensures result { shown result ≡ (opening (mac_by macs from.now.algorithm) from.now.ik from.now.spi window.old packet.now).result }
    ensures window { window.new ≡ (opening (mac_by macs from.now.algorithm) from.now.ik from.now.spi window.old packet.now).window }
{
    Hmacs::open(from, window, packet)
}
