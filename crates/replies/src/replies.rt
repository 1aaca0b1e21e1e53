// The reply to each line of the packet layer.
ghost use Rattle.esp.specs.Faults.{number_of, place_of};
ghost use Rattle.replies.specs.Packets.{opening_from, packet_bytes, sealing_to};
ghost use Rattle.replies.specs.Replies.{open_reply, reply_to, sealing_reply};
ghost use Rattle.script.specs.Answers.{bad_text, fault_text, text_of};
ghost use Rattle.script.specs.Lines.{line_by};
ghost use Rattle.script.specs.Packets.{packet_by};
ghost use Rattle.script.specs.declared.refusal.Refusal.TheVariants.{BadLine};
ghost use Rattle.std.specs.Option.{option_map};
ghost use Rattle.std.specs.Prelude.{◌≡◌, IfOk, vec_items};

use crate::packets;
use esp::{Association, Fault, ReplayWindow};
use script::{Answer, Call, Line, Packet, Refusal};
use std::alloc::{AllocError, Global};

// The answer of a call that the packet layer refused.
fn refused(call: Call, fault: Fault) -> Answer
    ensures { text_of result ≡ fault_text call (number_of fault) (place_of fault) }
{
    Answer::Refused {
        call,
        number: fault.number(),
        place: fault.place(),
    }
}

fn seal(
    heap: Global,
    to: &Association,
    counter: u32,
    segment: &[u8],
    area: u32,
) -> Result<Answer, AllocError>
    ensures { IfOk result (λ a. text_of a ≡ sealing_reply (sealing_to to.now counter segment.now area)) }
{
    let mut count = counter;
    Ok(packets::seal(heap, to, &mut count, segment, area)?.map_or_else(
        |fault| refused(Call::Seal, fault),
        |packet| Answer::Sealed { count, packet },
    ))
}

fn unseal(
    heap: Global,
    from: &Association,
    window: &mut ReplayWindow,
    packet: Packet<Vec<u8>>,
) -> Result<Answer, AllocError>
    ensures { IfOk result (λ a. (text_of a ≡ open_reply (opening_from from.now window.old (packet_bytes (packet_by vec_items packet))).result) × (window.new ≡ (opening_from from.now window.old (packet_bytes (packet_by vec_items packet))).window)) }
{
    let bytes = packets::packet_bytes(heap, packet)?;
    // A `match`, as the answer takes memory: under `map_or_else` both arms would be wrapped in `Ok`, which is no plainer.
    match product::open(from, window, bytes.as_slice()) {
        Ok(opened) => Ok(Answer::Opened {
            place: opened.place,
            segment: Vec::from_slice(heap, opened.bytes)?,
        }),
        Err(fault) => Ok(refused(Call::Unseal, fault)),
    }
}

// What a line of the packet layer is answered, nothing for one that is skipped.
pub fn perform(
    heap: Global,
    line: Line<Vec<u8>>,
    window: &mut ReplayWindow,
) -> Result<Option<Answer>, AllocError>
    ensures { IfOk result (λ a. (option_map text_of a ≡ (reply_to window.old (line_by vec_items line)).text) × (window.new ≡ (reply_to window.old (line_by vec_items line)).window)) }
{
    match line {
        Line::Skipped => Ok(None),
        Line::Tag {
            algorithm,
            ik,
            text,
        } => {
            let tag = product::tag(algorithm, &ik, text.as_slice());
            Ok(Some(Answer::Tagged { tag }))
        }
        Line::Seal {
            to,
            counter,
            segment,
            area,
        } => Ok(Some(seal(heap, &to, counter, segment.as_slice(), area)?)),
        Line::Window => {
            *window = ReplayWindow::new();
            Ok(Some(Answer::EmptyWindow))
        }
        Line::Unseal { from, packet } => Ok(Some(unseal(heap, &from, window, packet)?)),
    }
}

// What a line that was not read is answered.
pub fn unread(number: u64, refusal: Refusal) -> Result<Answer, AllocError>
    ensures { IfOk result (λ a. (refusal ≡ BadLine) × (text_of a ≡ bad_text number)) }
{
    match refusal {
        Refusal::BadLine => Ok(Answer::BadLine(number)),
        Refusal::NoMemory => Err(AllocError),
    }
}
