// Printing the answer of a call.
ghost use Rattle.texts.specs.Calls.{chosen_text, text_of};
ghost use Rattle.std.specs.Prelude.{Some};

use crate::name::CallName;
use procedure::{Carrier, Chosen, Fault};
use script::Hex;
use slots::Slot;
use std::fmt;

// What a call of the proxy is answered.
#[derive(Drop)]
pub enum CallAnswer {
    // How many rows the proxy serves.
    Opened {
        rows: usize,
    },
    Ticked {
        clock: u32,
    },
    Registered {
        chosen: Chosen,
    },
    // What a call that sends wrote into its area, and what that goes by.
    Sent {
        call: CallName,
        carrier: Carrier,
        out: Vec<u8>,
    },
    Arrived {
        subscriber: u32,
        slot: Slot,
        segment: Vec<u8>,
        // What an opening REGISTER is answered.
        chosen: Option<Chosen>,
    },
    Refreshed {
        expiry: u64,
    },
    // How many IMPUs are still registered.
    Deregistered {
        remaining: u32,
    },
    Refused {
        call: CallName,
        fault: Fault,
    },
}

// What the proxy chose, as it is printed behind `algorithm=`.
#[derive(Drop)]
struct Picked<'a>(&'a Chosen);

impl<'a> fmt::Display for Picked<'a> {
    ghost output = { λ p. Some (chosen_text p.0.now) };

    fn fmt<W: fmt::Write>(&self, f: &mut fmt::Formatter<W>) -> fmt::Result {
        let algorithm = self.0.algorithm.number();
        let spi = self.0.spi;
        write!(f, "{algorithm} spi={spi}")
    }
}

impl fmt::Display for CallAnswer {
    ghost output = { λ a. Some (text_of a) };

    fn fmt<W: fmt::Write>(&self, f: &mut fmt::Formatter<W>) -> fmt::Result {
        match self {
            CallAnswer::Opened { rows } => write!(f, "open n={rows}"),
            CallAnswer::Ticked { clock } => write!(f, "tick clock={clock}"),
            CallAnswer::Registered { chosen } => write!(f, "register algorithm={}", Picked(chosen)),
            CallAnswer::Sent { call, carrier, out } => {
                let bytes = out.len();
                let carrier = carrier.number();
                write!(
                    f,
                    "{call} bytes={bytes} carrier={carrier} out={}",
                    Hex(out.as_slice())
                )
            }
            CallAnswer::Arrived {
                subscriber,
                slot,
                segment,
                chosen,
            } => {
                let slot = slot.number();
                let bytes = Hex(segment.as_slice());
                match chosen {
                    None => write!(
                        f,
                        "arrive subscriber={subscriber} slot={slot} segment={bytes}"
                    ),
                    Some(chosen) => write!(
                        f,
                        "arrive subscriber={subscriber} slot={slot} segment={bytes} algorithm={}",
                        Picked(chosen)
                    ),
                }
            }
            CallAnswer::Refreshed { expiry } => write!(f, "refresh expiry={expiry}"),
            CallAnswer::Deregistered { remaining } => write!(f, "deregister remaining={remaining}"),
            // Printed as crate script prints a refusal, whose calls are another type.
            CallAnswer::Refused { call, fault } => {
                let number = fault.number();
                let place = fault.place();
                write!(f, "{call} fault={number} place={place}")
            }
        }
    }
}
