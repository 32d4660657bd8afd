// Replays a script of calls, one per line, from standard input: for each it prints a line with the reply and the whole state after the call.
// For tests: host/ compares it with an implementation that shares no code with it.
#![tactic(auto)]

mod collections;
mod consoles;
mod lines;
mod printing;
mod script;
mod splits;

use crate::script::Replay;
use arrayvec::ArrayVec;
use output::GoesOn;
use std::io;
use std::io::Read;

// How many octets one read asks for, at most.
const BLOCK: usize = 65536;

// A proved loop has to end, and an input might never do so: so the iterations count up to a number that no run uses up.
fn main(rt: HostRuntime) -> io::Result<()> {
    let mut source = rt.stdin();
    let mut replay = Replay::new(GoesOn(rt));
    let mut line = ArrayVec::new();
    let mut block = [0u8; BLOCK];
    for _ in 0..u64::MAX {
        let count = source.read(&mut block)?;
        if count == 0 {
            break;
        }
        replay.run_block(&mut line, &block[..count])?;
    }
    Ok(())
}
