// The lines of a script that call the proxy, their bytes held in a `B`.
use crate::opening::Opening;
use association::Address;
use integrity::Ik;
use procedure::{Message, Offer, Outcome};
use script::Packet;

#[derive(Drop)]
pub enum CallLine<B> {
    // A fresh proxy.
    Open(Opening),
    // The clock set to a second.
    Tick {
        time: u32,
    },
    // The first REGISTER of a registration, which came in clear.
    Register {
        address: Address,
        subscriber: u32,
        offer: Offer,
    },
    // The core's challenge. The segment that carries it to the handset goes into an area of so many bytes, as do
    // those of the other calls that send.
    Challenge {
        subscriber: u32,
        ik: Ik,
        segment: B,
        area: u32,
    },
    // A protected packet, with what the host says of the message in it.
    Arrive {
        address: Address,
        packet: Packet<B>,
        message: Message,
    },
    // How the core concluded a registration.
    Conclude {
        subscriber: u32,
        outcome: Outcome,
        segment: B,
        area: u32,
    },
    // Any other message to the handset.
    Send {
        subscriber: u32,
        segment: B,
        area: u32,
    },
    // A registration that lasts so many seconds from now on.
    Refresh {
        subscriber: u32,
        timer: u32,
    },
    // The IMPUs of the mask, registered no more.
    Deregister {
        subscriber: u32,
        mask: u16,
    },
}

// A line of the whole grammar.
#[derive(Drop)]
pub enum Line<B> {
    // The packet layer alone, or nothing.
    Packets(script::Line<B>),
    // A call of the proxy.
    Call(CallLine<B>),
}
