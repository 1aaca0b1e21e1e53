// Counting the results of a program that runs examples, and printing each.
#![tactic(auto)]

ghost use Rattle.std.specs.Prelude.{◌≡◌, Some};
ghost use Rattle.std.specs.Str.{bytes_eq};
ghost use Rattle.tally.specs.Tallies.{closing, counted, line_of};

use std::{fmt, io};

// How many results were what they should be, and how many were not.
#[derive(Clone, Copy)]
pub struct Tally {
    right: u32,
    wrong: u32,
}

// A result by the name and the number of its example, and what was due.
#[derive(Clone, Copy)]
struct Outcome<'a> {
    name: &'a str,
    number: usize,
    found: &'a str,
    due: &'a str,
}

impl Tally {
    // A tally of nothing yet.
    pub fn new() -> Tally
        ensures right { result.right ≡ 0 }
        ensures wrong { result.wrong ≡ 0 }
    {
        Tally { right: 0, wrong: 0 }
    }

    // Counts a result, and prints it.
    pub fn note(
        &mut self,
        rt: &impl Print,
        name: &str,
        number: usize,
        found: &str,
        due: &str,
    ) -> io::Result<()>
        ensures { self.new ≡ counted (bytes_eq found.now due.now) self.old }
    {
        if found == due {
            self.right = self.right.saturating_add(1);
        } else {
            self.wrong = self.wrong.saturating_add(1);
        }
        let outcome = Outcome {
            name,
            number,
            found,
            due,
        };
        println!(rt; "{outcome}")
    }
}

// The line of a result: `ok`, or what was found and what was due.
impl fmt::Display for Outcome<'_> {
    ghost output = { λ o. Some (line_of o) };

    fn fmt<W: fmt::Write>(&self, f: &mut fmt::Formatter<W>) -> fmt::Result {
        let Outcome {
            name,
            number,
            found,
            due,
        } = *self;
        if found == due {
            write!(f, "{name} {number}: ok")
        } else {
            write!(f, "{name} {number}: found {found}, not {due}")
        }
    }
}

// The line that closes a run.
impl fmt::Display for Tally {
    ghost output = { λ t. Some (closing t) };

    fn fmt<W: fmt::Write>(&self, f: &mut fmt::Formatter<W>) -> fmt::Result {
        let Tally { right, wrong } = *self;
        write!(f, "{right} ok, {wrong} differ")
    }
}
