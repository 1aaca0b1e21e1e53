// What a line says of a message of the handset: the last fields of the line.
ghost use Rattle.calls.specs.Messages.{message_by, message_of, offer_of, opening_of, ordinary_of, response_of};
ghost use Rattle.script.specs.declared.refusal.Refusal.TheVariants.{BadLine};
ghost use Rattle.std.specs.Option.{ok_or};
ghost use Rattle.std.specs.Prelude.{◌≡◌};

use procedure::{Message, Offer};
use script::{Fields, Refusal};

// The offer that ends a line.
pub fn read_offer(fields: &mut Fields) -> Result<Offer, Refusal>
    ensures { result ≡ ok_or (offer_of fields.old) BadLine }
{
    let port = fields.read()?;
    let spi = fields.read()?;
    let first = fields.read()?;
    let second = fields.read()?;
    fields.end()?;
    Ok(Offer {
        port,
        spi,
        first,
        second,
    })
}

fn read_opening(fields: &mut Fields) -> Result<Message, Refusal>
    ensures { result ≡ ok_or (opening_of fields.old) BadLine }
{
    let subscriber = fields.read()?;
    let offer = read_offer(fields)?;
    Ok(Message::Opening { subscriber, offer })
}

fn read_response(fields: &mut Fields) -> Result<Message, Refusal>
    ensures { result ≡ ok_or (response_of fields.old) BadLine }
{
    let offer = read_offer(fields)?;
    Ok(Message::Response { offer })
}

fn read_ordinary(fields: &mut Fields) -> Result<Message, Refusal>
    ensures { result ≡ ok_or (ordinary_of fields.old) BadLine }
{
    let impu = fields.read()?;
    fields.end()?;
    Ok(Message::Ordinary { impu })
}

// The message of a kind that a word names, with its fields.
fn message_by(kind: &[u8], fields: &mut Fields) -> Result<Message, Refusal>
    ensures { result ≡ ok_or (message_by kind.now fields.old) BadLine }
{
    match kind {
        b"opening" => read_opening(fields),
        b"response" => read_response(fields),
        b"ordinary" => read_ordinary(fields),
        _ => Err(Refusal::BadLine),
    }
}

// The message that ends a line, its kind first.
#[tactic(auto, unfolding(crate::specs::Messages::message_of))]
pub fn read_message(fields: &mut Fields) -> Result<Message, Refusal>
    ensures { result ≡ ok_or (message_of fields.old) BadLine }
{
    let kind = fields.expected()?;
    message_by(kind, fields)
}
