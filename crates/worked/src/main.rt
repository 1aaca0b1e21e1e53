// Runs a registration that was worked out by hand, and prints each call with `ok` or what differed.
#![tactic(auto)]

use procedure::{Chosen, Fault, Offer, Sent};
use product::Pcscf;
use registration::Row;
use std::alloc::{AllocError, Global};
use std::io;
use tally::Tally;

// A call's answer as `shown` writes it, or its fault.
fn told<T, F: FnOnce(T) -> Result<String, AllocError>>(
    heap: Global,
    answer: Result<T, Fault>,
    shown: F,
) -> Result<String, AllocError>
    requires { F.IsAlwaysCallable shown }
{
    answer.map_or_else(
        |fault| {
            let number = fault.number();
            let place = fault.place();
            format!(in heap; "fault {number}, place {place}")
        },
        shown,
    )
}

fn chosen(heap: Global, answer: Result<Chosen, Fault>) -> Result<String, AllocError> {
    told(heap, answer, |chosen| {
        let algorithm = chosen.algorithm.number();
        let spi = chosen.spi;
        format!(in heap; "algorithm {algorithm}, SPI {spi}")
    })
}

fn sent(heap: Global, answer: Result<Sent, Fault>) -> Result<String, AllocError> {
    told(heap, answer, |sent| {
        let bytes = sent.bytes;
        let carrier = sent.carrier.number();
        format!(in heap; "{bytes} bytes, carrier {carrier}")
    })
}

// Subscriber 1 registers in clear with a proxy that prefers algorithm 2, is challenged, and cannot be sent to yet.
fn run_registration(rt: &HostRuntime, tally: &mut Tally) -> io::Result<()> {
    let heap = rt.alloc();
    let address = (0x20010db8_00000000, 1);
    let offer = Offer {
        port: 5100,
        spi: 300,
        first: 1,
        second: 2,
    };
    // A UDP segment of 8 bytes from port 5060.
    let segment = [0x13, 0xc4, 0x13, 0xec, 0, 8, 0, 0];
    let mut out = [0; 8];
    let mut rows = [Row::new(); 2];
    let mut pcscf = Pcscf::open(&mut rows, 6000, &[2, 1]);
    let found = chosen(heap, pcscf.register(address, 1, offer))?;
    tally.note(
        rt,
        "registration",
        1,
        found.as_str(),
        "algorithm 2, SPI 4112",
    )?;
    let found = sent(heap, pcscf.challenge(1, &[7; 16], &segment, &mut out))?;
    tally.note(rt, "registration", 2, found.as_str(), "8 bytes, carrier 0")?;
    let found = sent(heap, pcscf.send(1, &segment, &mut out))?;
    tally.note(rt, "registration", 3, found.as_str(), "fault 25, place 0")
}

fn main(rt: HostRuntime) -> io::Result<()> {
    let mut tally = Tally::new();
    run_registration(&rt, &mut tally)?;
    println!(rt; "{tally}")
}
