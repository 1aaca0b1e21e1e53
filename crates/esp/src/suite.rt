// The packet layer over two algorithms, of which an association's number says which one it is under.
//
// A segment and the area that it goes into stay two parameters: the host lends both, and what a call leaves is said of the
// area alone.
ghost use Rattle.esp.specs.Opening.{opening, shown};
ghost use Rattle.esp.specs.Sealing.{laid, sealing};
ghost use Rattle.integrity.specs.Algorithms.{Macs, mac_by};
ghost use Rattle.integrity.specs.declared.algorithm.Algorithm.{Algorithm};
ghost use Rattle.integrity.specs.declared.algorithm.Algorithm.TheVariants.{One, Two};
ghost use Rattle.std.specs.Prelude.{◌≡◌, ℕ, List, length, take, IfOk};

use crate::association::Association;
use crate::faults::Fault;
use crate::opening::open;
use crate::sealing::seal;
use crate::segment::Segment;
use crate::window::ReplayWindow;
use integrity::{Algorithm, Ik, Integrity, Tag};

// Two integrity algorithms, the first under the number 1 and the second under 2. It is a type without a value, as each of
// the two is, and comes in as a type parameter.
pub trait Suite {
    // What the two mean.
    ghost macs: { Macs };

    // The tag of a text, of which no more than the first 4096 bytes are read.
    fn tag(algorithm: Algorithm, ik: &Ik, text: &[u8]) -> Tag
        ensures { result ≡ mac_by macs algorithm ik.now (take 4096 text.now) };

    // Seals a segment, as `seal` does under the association's algorithm.
    fn seal(
        to: &Association,
        counter: &mut u32,
        segment: &[u8],
        out: &mut [u8],
    ) -> Result<usize, Fault>
        ensures result { result ≡ (sealing (mac_by macs to.now.algorithm) to.now.ik to.now.spi counter.old segment.now (length out.old)).result }
        ensures count { counter.new ≡ (sealing (mac_by macs to.now.algorithm) to.now.ik to.now.spi counter.old segment.now (length out.old)).counter }
        ensures area { out.new ≡ laid (sealing (mac_by macs to.now.algorithm) to.now.ik to.now.spi counter.old segment.now (length out.old)).written out.old }
        ensures wrote { IfOk result (λ n. n ≡ length (sealing (mac_by macs to.now.algorithm) to.now.ik to.now.spi counter.old segment.now (length out.old)).written) };

    // Opens a packet, as `open` does under the association's algorithm.
    fn open<'a>(
        from: &Association,
        window: &mut ReplayWindow,
        packet: &'a [u8],
    ) -> Result<Segment<'a>, Fault>
        ensures result { shown result ≡ (opening (mac_by macs from.now.algorithm) from.now.ik from.now.spi window.old packet.now).result }
        ensures window { window.new ≡ (opening (mac_by macs from.now.algorithm) from.now.ik from.now.spi window.old packet.now).window };

    // Every tag has 12 bytes.
    ghost twelve: { (a : Algorithm) (ik text : List ℕ) → length (mac_by macs a ik text) ≡ 12 };
}

// A number picks one of two types, and no value can name a type: so each of the three has its own `match`.
impl<First: Integrity, Second: Integrity> Suite for (First, Second) {
    ghost macs = { record { one = First.Integrity.mac; two = Second.Integrity.mac } };

    ghost twelve = { elim [ One ↦ First.Integrity.twelve | Two ↦ Second.Integrity.twelve ] };

    fn tag(algorithm: Algorithm, ik: &Ik, text: &[u8]) -> Tag {
        match algorithm {
            Algorithm::One => First::tag(ik, text),
            Algorithm::Two => Second::tag(ik, text),
        }
    }

    fn seal(
        to: &Association,
        counter: &mut u32,
        segment: &[u8],
        out: &mut [u8],
    ) -> Result<usize, Fault> {
        match to.algorithm {
            Algorithm::One => seal::<First>(&to.ik, to.spi, counter, segment, out),
            Algorithm::Two => seal::<Second>(&to.ik, to.spi, counter, segment, out),
        }
    }

    fn open<'a>(
        from: &Association,
        window: &mut ReplayWindow,
        packet: &'a [u8],
    ) -> Result<Segment<'a>, Fault> {
        match from.algorithm {
            Algorithm::One => open::<First>(&from.ik, from.spi, window, packet),
            Algorithm::Two => open::<Second>(&from.ik, from.spi, window, packet),
        }
    }
}
