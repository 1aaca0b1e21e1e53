// The lines of a script, their bytes held in a `B`.
use crate::packet::Packet;
use esp::Association;
use integrity::{Algorithm, Ik};

// Five kinds of line, and the skipped one is one of them: no `Option` of four.
#[derive(Drop)]
pub enum Line<B> {
    // A blank line or a comment.
    Skipped,
    // A tag over some bytes.
    Tag {
        algorithm: Algorithm,
        ik: Ik,
        text: B,
    },
    // A segment sealed under the count after `counter`, into an area of so many bytes.
    Seal {
        to: Association,
        counter: u32,
        segment: B,
        area: u32,
    },
    // A fresh replay window.
    Window,
    // A packet opened under the window that is kept.
    Unseal {
        from: Association,
        packet: Packet<B>,
    },
}
