// Reading a line that calls the proxy, and a line of the whole grammar.
ghost use Rattle.calls.specs.Lines.{arrive_line, called_by, call_by, call_of, challenge_line, deregister_line, last_byte, line_by, line_of, open_line, refresh_line, register_line, send_line, tick_line};
ghost use Rattle.script.specs.Reads.{Says};
ghost use Rattle.script.specs.declared.refusal.Refusal.TheVariants.{BadLine};
ghost use Rattle.std.specs.Prelude.{◌≡◌, vec_items};
ghost use Rattle.std.specs.Option.{ok_or};

use crate::addresses::read_address;
use crate::line::{CallLine, Line};
use crate::messages::{read_message, read_offer};
use crate::opening::Opening;
use crate::outcomes::conclude_line;
use script::{Field, Fields, Refusal, Separator, body};
use std::alloc::Global;
use texts::CallName;

// The number of 8 bits that ends a line or is left out.
fn last_byte(fields: &mut Fields) -> Result<Option<u8>, Refusal>
    ensures { result ≡ ok_or (last_byte fields.old) BadLine }
{
    let Some(text) = fields.next() else {
        return Ok(None);
    };
    let byte = u8::read(text).ok_or(Refusal::BadLine)?;
    fields.end()?;
    Ok(Some(byte))
}

fn open_line(fields: &mut Fields) -> Result<CallLine<Vec<u8>>, Refusal>
    ensures { Says (call_by vec_items) result (open_line fields.old) }
{
    let rows = fields.read()?;
    let port = fields.read()?;
    let first = fields.read()?;
    let second = last_byte(fields)?;
    Ok(CallLine::Open(Opening {
        rows,
        port,
        first,
        second,
    }))
}

fn tick_line(fields: &mut Fields) -> Result<CallLine<Vec<u8>>, Refusal>
    ensures { Says (call_by vec_items) result (tick_line fields.old) }
{
    let time = fields.read()?;
    fields.end()?;
    Ok(CallLine::Tick { time })
}

fn register_line(fields: &mut Fields) -> Result<CallLine<Vec<u8>>, Refusal>
    ensures { Says (call_by vec_items) result (register_line fields.old) }
{
    let address = read_address(fields)?;
    let subscriber = fields.read()?;
    let offer = read_offer(fields)?;
    Ok(CallLine::Register {
        address,
        subscriber,
        offer,
    })
}

fn challenge_line(fields: &mut Fields) -> Result<CallLine<Vec<u8>>, Refusal>
    ensures { Says (call_by vec_items) result (challenge_line fields.old) }
{
    let subscriber = fields.read()?;
    let ik = fields.ik()?;
    let segment = fields.bytes()?;
    let area = fields.read()?;
    fields.end()?;
    Ok(CallLine::Challenge {
        subscriber,
        ik,
        segment,
        area,
    })
}

fn arrive_line(fields: &mut Fields) -> Result<CallLine<Vec<u8>>, Refusal>
    ensures { Says (call_by vec_items) result (arrive_line fields.old) }
{
    let address = read_address(fields)?;
    let packet = fields.packet()?;
    let message = read_message(fields)?;
    Ok(CallLine::Arrive {
        address,
        packet,
        message,
    })
}

fn send_line(fields: &mut Fields) -> Result<CallLine<Vec<u8>>, Refusal>
    ensures { Says (call_by vec_items) result (send_line fields.old) }
{
    let subscriber = fields.read()?;
    let segment = fields.bytes()?;
    let area = fields.read()?;
    fields.end()?;
    Ok(CallLine::Send {
        subscriber,
        segment,
        area,
    })
}

fn refresh_line(fields: &mut Fields) -> Result<CallLine<Vec<u8>>, Refusal>
    ensures { Says (call_by vec_items) result (refresh_line fields.old) }
{
    let subscriber = fields.read()?;
    let timer = fields.read()?;
    fields.end()?;
    Ok(CallLine::Refresh { subscriber, timer })
}

fn deregister_line(fields: &mut Fields) -> Result<CallLine<Vec<u8>>, Refusal>
    ensures { Says (call_by vec_items) result (deregister_line fields.old) }
{
    let subscriber = fields.read()?;
    let mask = fields.read()?;
    fields.end()?;
    Ok(CallLine::Deregister { subscriber, mask })
}

// The fields of a call.
fn call_by(call: CallName, fields: &mut Fields) -> Result<CallLine<Vec<u8>>, Refusal>
    ensures { Says (call_by vec_items) result (called_by call fields.old) }
{
    match call {
        CallName::Open => open_line(fields),
        CallName::Tick => tick_line(fields),
        CallName::Register => register_line(fields),
        CallName::Challenge => challenge_line(fields),
        CallName::Arrive => arrive_line(fields),
        CallName::Conclude => conclude_line(fields),
        CallName::Send => send_line(fields),
        CallName::Refresh => refresh_line(fields),
        CallName::Deregister => deregister_line(fields),
    }
}

// A line that calls the proxy.
#[tactic(auto, unfolding(crate::specs::Lines::call_of))]
fn read_call(heap: Global, line: &[u8]) -> Result<CallLine<Vec<u8>>, Refusal>
    ensures { Says (call_by vec_items) result (call_of line.now) }
{
    let mut fields = Fields::new(heap, body(line), Separator::Space);
    let call = fields.read()?;
    call_by(call, &mut fields)
}

// A line of a script: what is not of the packet layer's grammar calls the proxy or is no line.
#[tactic(auto, unfolding(crate::specs::Lines::line_of))]
pub fn read_line(heap: Global, line: &[u8]) -> Result<Line<Vec<u8>>, Refusal>
    ensures { Says (line_by vec_items) result (line_of line.now) }
{
    match script::read_line(heap, line) {
        Ok(packets) => Ok(Line::Packets(packets)),
        Err(Refusal::BadLine) => read_call(heap, line).map(Line::Call),
        Err(Refusal::NoMemory) => Err(Refusal::NoMemory),
    }
}
