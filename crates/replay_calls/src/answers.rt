// The answer of a call of the proxy, from what the proxy gave.
ghost use Rattle.registration.specs.Receiving.{heard_of};
ghost use Rattle.replay_calls.specs.Calls.{bytes_of, heard_text, said, sent_said};
ghost use Rattle.std.specs.Prelude.{◌≡◌, ◌≤◌, take, IfOk};
ghost use Rattle.std.specs.Result.{ForOk, MatchResult};
ghost use Rattle.texts.specs.Calls.{text_of};
ghost use Rattle.texts.specs.declared.call.CallAnswer.TheVariants.{Refused};
ghost use Rattle.texts.specs.declared.name.CallName.TheVariants.{Arrive};

use procedure::{Arrived, Fault, Sent};
use std::alloc::{AllocError, Global};
use texts::{CallAnswer, CallName};

// What a call came to, or its refusal.
pub fn answered<T, F: FnOnce(T) -> CallAnswer>(
    call: CallName,
    gave: Result<T, Fault>,
    answer: F,
) -> CallAnswer
    requires { ForOk gave (F.pre answer) }
    ensures { MatchResult gave (λ x. F.post answer x result) (λ fault. result ≡ Refused call fault) }
{
    gave.map_or_else(|fault| CallAnswer::Refused { call, fault }, answer)
}

// What a call that sends is answered, with what it wrote at the front of an area.
pub fn sent(
    heap: Global,
    call: CallName,
    gave: Result<Sent, Fault>,
    area: &[u8; 1424],
) -> Result<CallAnswer, AllocError>
    requires { bytes_of gave ≤ 1424 }
    ensures { IfOk result (λ a. text_of a ≡ sent_said call gave (take (bytes_of gave) area.now)) }
{
    // A `match`, here and in `arrived`, as the answer takes memory: under `map_or_else` both arms would be wrapped in `Ok`, which
    // is no plainer.
    match gave {
        Ok(sent) => Ok(CallAnswer::Sent {
            call,
            carrier: sent.carrier,
            out: Vec::from_slice(heap, &area[0..sent.bytes])?,
        }),
        Err(fault) => Ok(CallAnswer::Refused { call, fault }),
    }
}

// What a packet that arrived is answered.
pub fn arrived(heap: Global, gave: Result<Arrived, Fault>) -> Result<CallAnswer, AllocError>
    ensures { IfOk result (λ a. text_of a ≡ said Arrive heard_text (heard_of gave.entry)) }
{
    match gave {
        Ok(arrived) => Ok(CallAnswer::Arrived {
            subscriber: arrived.subscriber,
            slot: arrived.slot,
            segment: Vec::from_slice(heap, arrived.segment.bytes)?,
            chosen: arrived.chosen,
        }),
        Err(fault) => Ok(CallAnswer::Refused {
            call: CallName::Arrive,
            fault,
        }),
    }
}
