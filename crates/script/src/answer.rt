// Printing an answer.
ghost use Rattle.script.specs.Answers.{name_of, text_of};
ghost use Rattle.std.specs.Prelude.{◌≡◌, Some};

use crate::hex::Hex;
use integrity::Tag;
use std::fmt;

// The calls that can refuse.
#[derive(Clone, Copy)]
pub enum Call {
    Seal,
    Unseal,
}

impl Call {
    // The first word of the call's line. `Display` prints it, and can fail; this cannot.
    pub fn name(self) -> &'static str
        ensures { result.now ≡ name_of self }
    {
        match self {
            Call::Seal => "seal",
            Call::Unseal => "unseal",
        }
    }
}

impl fmt::Display for Call {
    ghost output = { λ c. Some (name_of c) };

    fn fmt<W: fmt::Write>(&self, f: &mut fmt::Formatter<W>) -> fmt::Result {
        f.write_str(self.name())
    }
}

// What a line of a script is answered.
#[derive(Drop)]
pub enum Answer {
    Tagged {
        tag: Tag,
    },
    Sealed {
        count: u32,
        packet: Vec<u8>,
    },
    EmptyWindow,
    Opened {
        place: usize,
        segment: Vec<u8>,
    },
    // A fault by its number and place: whatever refuses can be printed, not the packet layer alone.
    Refused {
        call: Call,
        number: u8,
        place: usize,
    },
    // The line with this number, counted from 1, is not of the grammar.
    BadLine(u64),
}

impl fmt::Display for Answer {
    ghost output = { λ a. Some (text_of a) };

    fn fmt<W: fmt::Write>(&self, f: &mut fmt::Formatter<W>) -> fmt::Result {
        match self {
            Answer::Tagged { tag } => write!(f, "tag {}", Hex(tag)),
            Answer::Sealed { count, packet } => {
                let bytes = packet.len();
                let out = Hex(packet.as_slice());
                write!(f, "seal bytes={bytes} count={count} out={out}")
            }
            Answer::EmptyWindow => write!(f, "window empty"),
            Answer::Opened { place, segment } => {
                let segment = Hex(segment.as_slice());
                write!(f, "unseal place={place} segment={segment}")
            }
            Answer::Refused {
                call,
                number,
                place,
            } => write!(f, "{call} fault={number} place={place}"),
            Answer::BadLine(n) => write!(f, "bad line {n}"),
        }
    }
}
