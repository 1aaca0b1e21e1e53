// The line that concludes a registration.
ghost use Rattle.calls.specs.Lines.{call_by};
ghost use Rattle.calls.specs.Outcomes.{conclude_as, conclude_line, kind_of, success_line, told_line};
ghost use Rattle.script.specs.Reads.{Says};
ghost use Rattle.std.specs.Prelude.{vec_items};

use crate::line::CallLine;
use procedure::Outcome;
use script::{Field, Fields, Refusal};

// The kinds of outcome.
#[derive(Clone, Copy)]
enum Kind {
    Success,
    UserFailure,
    OtherFailure,
}

impl Field for Kind {
    ghost read = { kind_of };

    fn read(word: &[u8]) -> Option<Kind> {
        match word {
            b"success" => Some(Kind::Success),
            b"user-failure" => Some(Kind::UserFailure),
            b"other-failure" => Some(Kind::OtherFailure),
            _ => None,
        }
    }
}

// The fields after an outcome: the segment that tells the handset of it, and the area.
fn told_line(
    subscriber: u32,
    outcome: Outcome,
    fields: &mut Fields,
) -> Result<CallLine<Vec<u8>>, Refusal>
    ensures { Says (call_by vec_items) result (told_line subscriber outcome fields.old) }
{
    let segment = fields.bytes()?;
    let area = fields.read()?;
    fields.end()?;
    Ok(CallLine::Conclude {
        subscriber,
        outcome,
        segment,
        area,
    })
}

fn success_line(subscriber: u32, fields: &mut Fields) -> Result<CallLine<Vec<u8>>, Refusal>
    ensures { Says (call_by vec_items) result (success_line subscriber fields.old) }
{
    let timer = fields.read()?;
    let mask = fields.read()?;
    told_line(subscriber, Outcome::Success { timer, mask }, fields)
}

// The outcome that ends a line, its kind first.
fn conclude_as(subscriber: u32, fields: &mut Fields) -> Result<CallLine<Vec<u8>>, Refusal>
    ensures { Says (call_by vec_items) result (conclude_as subscriber fields.old) }
{
    match fields.read()? {
        Kind::Success => success_line(subscriber, fields),
        Kind::UserFailure => told_line(subscriber, Outcome::UserFailure, fields),
        Kind::OtherFailure => told_line(subscriber, Outcome::OtherFailure, fields),
    }
}

pub fn conclude_line(fields: &mut Fields) -> Result<CallLine<Vec<u8>>, Refusal>
    ensures { Says (call_by vec_items) result (conclude_line fields.old) }
{
    let subscriber = fields.read()?;
    conclude_as(subscriber, fields)
}
