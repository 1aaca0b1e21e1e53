// The reply to each line of a script.
ghost use Rattle.calls.specs.Lines.{call_by, line_of};
ghost use Rattle.product.specs.Product.{state_in};
ghost use Rattle.replay_calls.specs.Calls.{state_after, text_for};
ghost use Rattle.replay_calls.specs.Turns.{Shows, turn_of};
ghost use Rattle.std.specs.Prelude.{◌≡◌, IfOk, Some, vec_items};

use crate::answers::{answered, arrived, sent};
use crate::next::Next;
use calls::{CallLine, Line, read_line};
use esp::{LONGEST_PACKET, ReplayWindow};
use product::Pcscf;
use replies::{packet_bytes, perform, unread};
use std::alloc::{AllocError, Global};
use texts::{CallAnswer, CallName};

// What follows from a call.
fn call(heap: Global, pcscf: &mut Pcscf, line: CallLine<Vec<u8>>) -> Result<Next, AllocError>
    ensures { IfOk result (λ n. Shows n (Some (text_for (call_by vec_items line) (state_in pcscf.old))) × (state_in pcscf.new ≡ state_after (call_by vec_items line) (state_in pcscf.old))) }
{
    // One array for the calls that send: the proxy's form of them for a given length takes one of the longest packet.
    let mut out = [0; LONGEST_PACKET];
    match line {
        CallLine::Open(opening) => Ok(Next::Open(opening)),
        CallLine::Tick { time } => {
            let gave = pcscf.tick(time);
            Ok(Next::Call(answered(CallName::Tick, gave, |clock| CallAnswer::Ticked { clock })))
        }
        CallLine::Register {
            address,
            subscriber,
            offer,
        } => {
            let gave = pcscf.register(address, subscriber, offer);
            Ok(Next::Call(answered(
                CallName::Register,
                gave,
                |chosen| CallAnswer::Registered { chosen },
            )))
        }
        CallLine::Challenge {
            subscriber,
            ik,
            segment,
            area,
        } => {
            let gave = pcscf.challenge_within(subscriber, &ik, segment.as_slice(), area, &mut out);
            Ok(Next::Call(sent(heap, CallName::Challenge, gave, &out)?))
        }
        CallLine::Arrive {
            address,
            packet,
            message,
        } => {
            let bytes = packet_bytes(heap, packet)?;
            let gave = pcscf.arrive(address, bytes.as_slice(), message);
            Ok(Next::Call(arrived(heap, gave)?))
        }
        CallLine::Conclude {
            subscriber,
            outcome,
            segment,
            area,
        } => {
            let gave = pcscf.outcome_within(
                subscriber,
                outcome,
                segment.as_slice(),
                area,
                &mut out,
            );
            Ok(Next::Call(sent(heap, CallName::Conclude, gave, &out)?))
        }
        CallLine::Send {
            subscriber,
            segment,
            area,
        } => {
            let gave = pcscf.send_within(subscriber, segment.as_slice(), area, &mut out);
            Ok(Next::Call(sent(heap, CallName::Send, gave, &out)?))
        }
        CallLine::Refresh { subscriber, timer } => {
            let gave = pcscf.refresh(subscriber, timer);
            Ok(Next::Call(answered(
                CallName::Refresh,
                gave,
                |expiry| CallAnswer::Refreshed { expiry },
            )))
        }
        CallLine::Deregister { subscriber, mask } => {
            let gave = pcscf.deregister(subscriber, mask);
            Ok(Next::Call(answered(
                CallName::Deregister,
                gave,
                |remaining| CallAnswer::Deregistered { remaining },
            )))
        }
    }
}

// What follows from the line with this number.
pub fn turn(
    heap: Global,
    number: u64,
    line: &[u8],
    window: &mut ReplayWindow,
    pcscf: &mut Pcscf,
) -> Result<Next, AllocError>
    ensures { IfOk result (λ n. Shows n (turn_of window.old (state_in pcscf.old) number (line_of line.now)).text × (window.new ≡ (turn_of window.old (state_in pcscf.old) number (line_of line.now)).window) × (state_in pcscf.new ≡ (turn_of window.old (state_in pcscf.old) number (line_of line.now)).state)) }
{
    match read_line(heap, line) {
        Ok(Line::Packets(line)) => Ok(Next::Layer(perform(heap, line, window)?)),
        Ok(Line::Call(line)) => call(heap, pcscf, line),
        Err(refusal) => Ok(Next::Layer(Some(unread(number, refusal)?))),
    }
}
