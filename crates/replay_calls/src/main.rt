// Replays a script of calls: one call a line on standard input, one answer a line on standard output.
//
// Each answer is written out before the next line is waited for, and no more than one line is held at a time.
#![tactic(auto)]

mod answers;
mod next;
mod openings;
mod turns;

use calls::Opening;
use esp::ReplayWindow;
use next::Next;
use product::Pcscf;
use registration::Row;
use std::io;
use std::io::{BufRead, BufReader, Stdin};
use texts::CallAnswer;
use turns::turn;

// A script that is read line by line. A struct, unlike the loop of crate replay, since reading goes on after a proxy was opened
// anew.
#[derive(Drop)]
struct Script {
    input: BufReader<Stdin>,
    line: Vec<u8>,
    // The number of the line that was read last.
    number: u64,
}

impl Script {
    // Reads the next line, if there is one.
    fn advance(&mut self) -> io::Result<bool> {
        self.line.clear();
        self.number = self.number.saturating_add(1);
        Ok(self.input.read_until(b'\n', &mut self.line)? > 0)
    }
}

// Answers the lines up to the next that opens another proxy.
fn session(
    rt: &HostRuntime,
    script: &mut Script,
    window: &mut ReplayWindow,
    pcscf: &mut Pcscf,
) -> io::Result<Option<Opening>> {
    // A loop over input is counted, so that it is known to end.
    for _ in 0..u64::MAX {
        if !script.advance()? {
            break;
        }
        match turn(
            rt.alloc(),
            script.number,
            script.line.as_slice(),
            window,
            pcscf,
        )? {
            Next::Layer(Some(answer)) => println!(rt; "{answer}")?,
            Next::Layer(None) => {}
            Next::Call(answer) => println!(rt; "{answer}")?,
            Next::Open(opening) => return Ok(Some(opening)),
        }
    }
    Ok(None)
}

fn main(rt: HostRuntime) -> io::Result<()> {
    let heap = rt.alloc();
    let mut script = Script {
        input: BufReader::new(heap, rt.stdin())?,
        line: Vec::new(heap),
        number: 0,
    };
    let mut window = ReplayWindow::new();
    let mut opening = openings::NOBODY;
    // Counted, as each loop over input.
    for opened in 0..u64::MAX {
        let mut rows = vec![in heap; Row::new(); openings::room(&opening)]?;
        let mut pcscf = openings::open(&opening, rows.as_mut_slice());
        if opened > 0 {
            let answer = CallAnswer::Opened {
                rows: pcscf.count(),
            };
            println!(rt; "{answer}")?;
        }
        match session(&rt, &mut script, &mut window, &mut pcscf)? {
            Some(next) => opening = next,
            None => break,
        }
    }
    Ok(())
}
