// Replays a script of calls: one call a line on standard input, one answer a line on standard output.
//
// Each answer is written out before the next line is waited for, and no more than one line is held at a time.
#![tactic(auto)]

mod reply;

use esp::ReplayWindow;
use reply::reply;
use std::io;
use std::io::{BufRead, BufReader};

fn main(rt: HostRuntime) -> io::Result<()> {
    let heap = rt.alloc();
    let mut input = BufReader::new(heap, rt.stdin())?;
    let mut line = Vec::new(heap);
    let mut window = ReplayWindow::new();
    // A loop over input is counted, so that it is known to end.
    for number in 1..u64::MAX {
        line.clear();
        if input.read_until(b'\n', &mut line)? == 0 {
            break;
        }
        if let Some(answer) = reply(heap, number, line.as_slice(), &mut window)? {
            println!(rt; "{answer}")?;
        }
    }
    Ok(())
}
