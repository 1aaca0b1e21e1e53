// What the host says of a message.
use crate::chosen::Chosen;
use crate::offer::Offer;
use esp::Segment;
use slots::Slot;

// A message of the handset.
#[derive(Clone, Copy, PartialEq, Eq, Debug)]
pub enum Message {
    // The first REGISTER of a registration (SM1), with the subscriber that it names.
    Opening { subscriber: u32, offer: Offer },
    // The REGISTER that answers the challenge (SM7).
    Response { offer: Offer },
    // Any other message, with the IMPU that it is from.
    Ordinary { impu: u8 },
}

// How the core concluded a registration. Three outcomes, as the core names them: a `Result` would want a second enum for the
// two failures.
#[derive(Clone, Copy, PartialEq, Eq, Debug)]
pub enum Outcome {
    // Registered for so many seconds, with the IMPUs of the mask.
    Success { timer: u32, mask: u16 },
    // The handset's response was wrong.
    UserFailure,
    // The registration failed for another reason.
    OtherFailure,
}

// What an accepted packet is answered.
#[derive(Clone, Copy)]
pub struct Arrived<'a> {
    pub subscriber: u32,
    // The slot of the set that it came on.
    pub slot: Slot,
    pub segment: Segment<'a>,
    // What an opening REGISTER is answered.
    pub chosen: Option<Chosen>,
}
