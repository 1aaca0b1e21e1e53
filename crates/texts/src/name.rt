// The calls by the first word of their lines.
ghost use Rattle.texts.specs.Names.{named, name_of};
ghost use Rattle.std.specs.Prelude.{◌≡◌, Some};

use script::Field;
use std::fmt;

#[derive(Clone, Copy)]
pub enum CallName {
    Open,
    Tick,
    Register,
    Challenge,
    Arrive,
    Conclude,
    Send,
    Refresh,
    Deregister,
}

impl CallName {
    // The first word of the call's line. `Display` prints it, and can fail; this cannot.
    pub fn name(self) -> &'static str
        ensures { result.now ≡ name_of self }
    {
        match self {
            CallName::Open => "open",
            CallName::Tick => "tick",
            CallName::Register => "register",
            CallName::Challenge => "challenge",
            CallName::Arrive => "arrive",
            CallName::Conclude => "outcome",
            CallName::Send => "send",
            CallName::Refresh => "refresh",
            CallName::Deregister => "deregister",
        }
    }
}

impl fmt::Display for CallName {
    ghost output = { λ c. Some (name_of c) };

    fn fmt<W: fmt::Write>(&self, f: &mut fmt::Formatter<W>) -> fmt::Result {
        f.write_str(self.name())
    }
}

// The call that a word names.
impl Field for CallName {
    ghost read = { named };

    fn read(word: &[u8]) -> Option<CallName> {
        match word {
            b"open" => Some(CallName::Open),
            b"tick" => Some(CallName::Tick),
            b"register" => Some(CallName::Register),
            b"challenge" => Some(CallName::Challenge),
            b"arrive" => Some(CallName::Arrive),
            b"outcome" => Some(CallName::Conclude),
            b"send" => Some(CallName::Send),
            b"refresh" => Some(CallName::Refresh),
            b"deregister" => Some(CallName::Deregister),
            _ => None,
        }
    }
}
