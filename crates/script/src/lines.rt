// Reading a line of a script.
ghost use Rattle.script.specs.Lines.{body_of, call_of, is_comment, line_by, line_of, seal_line, tag_line, unseal_line, window_line};
ghost use Rattle.script.specs.Reads.{Says};
ghost use Rattle.std.specs.Prelude.{◌≡◌, vec_items};

use crate::fields::{Fields, Separator};
use crate::line::Line;
use crate::refusal::Refusal;
use std::alloc::Global;

#[tactic(auto, unfolding(crate::specs::Lines::tag_line))]
fn tag_line(fields: &mut Fields) -> Result<Line<Vec<u8>>, Refusal>
    ensures { Says (line_by vec_items) result (tag_line fields.old) }
{
    let algorithm = fields.read()?;
    let ik = fields.ik()?;
    let text = fields.bytes()?;
    fields.end()?;
    Ok(Line::Tag {
        algorithm,
        ik,
        text,
    })
}

#[tactic(auto, unfolding(crate::specs::Lines::seal_line))]
fn seal_line(fields: &mut Fields) -> Result<Line<Vec<u8>>, Refusal>
    ensures { Says (line_by vec_items) result (seal_line fields.old) }
{
    let to = fields.association()?;
    let counter = fields.read()?;
    let segment = fields.bytes()?;
    let area = fields.read()?;
    fields.end()?;
    Ok(Line::Seal {
        to,
        counter,
        segment,
        area,
    })
}

#[tactic(auto, unfolding(crate::specs::Lines::window_line))]
fn window_line(fields: &mut Fields) -> Result<Line<Vec<u8>>, Refusal>
    ensures { Says (line_by vec_items) result (window_line fields.old) }
{
    fields.end()?;
    Ok(Line::Window)
}

#[tactic(auto, unfolding(crate::specs::Lines::unseal_line))]
fn unseal_line(fields: &mut Fields) -> Result<Line<Vec<u8>>, Refusal>
    ensures { Says (line_by vec_items) result (unseal_line fields.old) }
{
    let from = fields.association()?;
    let packet = fields.packet()?;
    fields.end()?;
    Ok(Line::Unseal { from, packet })
}

// The call that a first word names, with its fields.
fn call(name: &[u8], fields: &mut Fields) -> Result<Line<Vec<u8>>, Refusal>
    ensures { Says (line_by vec_items) result (call_of name.now fields.old) }
{
    match name {
        b"tag" => tag_line(fields),
        b"seal" => seal_line(fields),
        b"window" => window_line(fields),
        b"unseal" => unseal_line(fields),
        _ => Err(Refusal::BadLine),
    }
}

// A line without its end.
pub fn body(line: &[u8]) -> &[u8]
    ensures { result.now ≡ body_of line.now }
{
    if let Some(whole) = line.strip_suffix(b"\r\n") {
        return whole;
    }
    line.strip_suffix(b"\n").unwrap_or(line)
}

// Whether a line begins with `#`.
fn is_comment(text: &[u8]) -> bool
    ensures { result ≡ is_comment text.now }
{
    text.starts_with(b"#")
}

// What a line of a script says.
#[tactic(auto, unfolding(crate::specs::Lines::line_of))]
pub fn read_line(heap: Global, line: &[u8]) -> Result<Line<Vec<u8>>, Refusal>
    ensures { Says (line_by vec_items) result (line_of line.now) }
{
    let text = body(line);
    if is_comment(text) {
        return Ok(Line::Skipped);
    }
    let mut fields = Fields::new(heap, text, Separator::Space);
    match fields.next() {
        None => Ok(Line::Skipped),
        Some(name) => call(name, &mut fields),
    }
}
