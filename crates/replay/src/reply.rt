// The reply to each line of a script.
ghost use Rattle.replay.specs.Replies.{reply_to};
ghost use Rattle.script.specs.Answers.{text_of};
ghost use Rattle.script.specs.Lines.{line_of};
ghost use Rattle.std.specs.Option.{option_map};
ghost use Rattle.std.specs.Prelude.{◌≡◌, IfOk};

use esp::ReplayWindow;
use replies::{perform, unread};
use script::{Answer, read_line};
use std::alloc::{AllocError, Global};

// What the line with this number is answered, nothing for a line that is skipped.
pub fn reply(
    heap: Global,
    number: u64,
    line: &[u8],
    window: &mut ReplayWindow,
) -> Result<Option<Answer>, AllocError>
    ensures { IfOk result (λ a. (option_map text_of a ≡ (reply_to window.old number (line_of line.now)).text) × (window.new ≡ (reply_to window.old number (line_of line.now)).window)) }
{
    match read_line(heap, line) {
        Ok(line) => perform(heap, line, window),
        Err(refusal) => Ok(Some(unread(number, refusal)?)),
    }
}
