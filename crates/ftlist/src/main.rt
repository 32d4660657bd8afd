// Lists a capture from standard input on standard output, the lines of one step at a time. If
// reading or writing fails, it reports that on standard error.
#![tactic(auto)]

ghost use Rattle.std.specs.Prelude.{◌+◌, ◌≤◌, length, IfOk};

use listing::lines::LONGEST_LINES;
use listing::walk::{LONGEST_CAPTURE, begin, step};
use std::io;
use std::io::{Read, Write};
use text::text::Sheet;

// One octet more than the longest capture that is listed, so that a longer one is noticed.
const ROOM: usize = LONGEST_CAPTURE + 1;

// One read into a buffer, after the octets that it has already: reads none if the input has ended. Buffer and position are two parameters:
// what it promises counts from the beginning of the buffer.
fn read_some<R: Read>(source: &mut R, buffer: &mut [u8], at: usize) -> io::Result<usize>
    requires { at ≤ length buffer.old }
    ensures { IfOk result (λ n. at + n ≤ length buffer.new) }
{
    let rest = &mut buffer[at..];
    source.read(rest)
}

// Reads until the input ends, a read fails or the buffer is full; returns how many octets it read.
fn read_input<R: Read>(source: &mut R, buffer: &mut [u8]) -> io::Result<usize>
    ensures { IfOk result (λ n. n ≤ length buffer.new) }
{
    // no `for`: how many reads the input takes is known only at its end
    let mut filled = 0;
    while filled < buffer.len() {
        let more = read_some(source, buffer, filled)?;
        if more == 0 {
            break;
        }
        filled += more;
    }
    Ok(filled)
}

// Lists a capture, until the listing ends or a write fails.
fn show_listing<W: Write>(target: &mut W, capture: &[u8]) -> io::Result<()> {
    let mut lines = [0u8; LONGEST_LINES];
    // no `for`: how many steps there are is known only at the end
    let mut walk = begin();
    while !walk.ended {
        let mut sheet = Sheet::new(&mut lines);
        walk = step(&mut sheet, walk, capture);
        let length = sheet.at;
        target.write_all(&lines[..length])?;
    }
    Ok(())
}

fn main(rt: HostRuntime) -> io::Result<()> {
    let mut buffer = [0u8; ROOM];
    match read_input(&mut rt.stdin(), &mut buffer) {
        Ok(length) => match show_listing(&mut rt.stdout(), &buffer[..length]) {
            Ok(()) => Ok(()),
            Err(error) => eprintln!(rt; "ftlist: standard output: {error}"),
        },
        Err(error) => eprintln!(rt; "ftlist: standard input: {error}"),
    }
}
