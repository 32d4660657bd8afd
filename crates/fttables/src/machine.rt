// What each write does to the machine in each state, as the calls answer; what a success does; the
// parameters' units; and the ranges, with the targets that they admit.
use crate::clients::{START, SUCCESS, after, holding};
use crate::increments::print_steps;
use crate::written::Written;
use output::state::ModeWords;
use service::control::Console;
use service::control::machine::Mode;
use service::control::op_codes::op_code;
use std::io;

const STOP: [u8; 2] = [0x08, 1];

const PAUSE: [u8; 2] = [0x08, 2];

const RESET: [u8; 1] = [0x01];

// The lines of the states.
const MODES: [Mode; 3] = [Mode::Stopped, Mode::Running, Mode::Paused];

// "Success: 00 gives control; 01 zeroes every setting, stops and frees control; 07 sets running, 08
// stopped (1) or paused (2); .. store the parameter octets." Of document 02: "parameter 1 starts, 2
// ignores".
const SUCCESSES: &str = "
## Successes

| write | what its success does |
|---|---|
| 00 | gives the client control |
| 01 | zeroes every setting, stops the machine, frees control and ends a run |
| 07 | sets the machine running |
| 08 01 | stops the machine |
| 08 02 | pauses the machine |
| 02 to 06, 09 to 12, 14 | stores the parameter octets as the setting |
| 13 01 | starts a run; the target speeds follow the result in the response |
| 13 02 | ends a run |
";

// The units of the parameters, as source document 000 gives them in tables 4.15, 4.17 to 4.20 and
// 4.22.
const UNITS: &str = "
## Units

| op code | parameter | unit | resolution |
|---|---|---|---|
| 02 | speed | kilometers per hour | 0.01 |
| 03 | inclination | percent | 0.1 |
| 04 | resistance | none | 0.1 |
| 05 | power | watts | 1 |
| 06 | heart rate | beats per minute | 1 |
| 09 | energy | Calories | 1 |
| 0A | steps | steps | 1 |
| 0B | strides | strides | 1 |
| 0C | distance | meters | 1 |
| 0D | time | seconds | 1 |
| 0E, 0F, 10 | each zone | seconds | |
| 11 | wind | meters per second | 0.001 |
| 11 | grade | percent | 0.01 |
| 11 | rolling | none | 0.0001 |
| 11 | drag | kilograms per meter | 0.01 |
| 12 | wheel | millimeters | 0.1 |
| 13 | target speeds in the response | kilometers per hour | 0.01 |
| 14 | cadence | 1/minute | 0.5 |
";

// "Ranges (least, greatest, both allowed) exist for speed u16, inclination s16, resistance s16,
// power s16, heart rate u8." Of document 02: "Each range gets its increment, u16 (for heart rate
// u8)." Each with the op code whose target is compared with it.
const COMPARED: [(&str, &str, &str, u8); 5] = [
    ("speed", "u16", "u16", 0x02),
    ("inclination", "s16", "u16", 0x03),
    ("resistance", "s16", "u16", 0x04),
    ("power", "s16", "u16", 0x05),
    ("heart rate", "u8", "u8", 0x06),
];

// A console whose client 0 holds control and whose machine is in one of the states.
fn in_state(mode: Mode) -> Console {
    let console = holding();
    match mode {
        Mode::Stopped => console,
        Mode::Running => after(console, &START),
        Mode::Paused => after(after(console, &START), &PAUSE),
    }
}

// The cell of a write: the state after it, or its result if that is not success.
fn print_write(rt: &impl Print, console: Console, octets: &[u8]) -> io::Result<()> {
    let reply = console.write(0, octets);
    match reply.response.octets[2] {
        SUCCESS => print!(rt; " {} |", ModeWords(reply.console.machine.mode)),
        result => print!(rt; " result {result:02X} |"),
    }
}

fn print_states(rt: &impl Print) -> io::Result<()> {
    print!(rt; "\n## States\n\n| machine | 07 | 08 01 | 08 02 | 01 |\n|---|---|---|---|---|\n")?;
    for mode in MODES {
        let console = in_state(mode);
        print!(rt; "| {} |", ModeWords(console.machine.mode))?;
        print_write(rt, console, &START)?;
        print_write(rt, console, &STOP)?;
        print_write(rt, console, &PAUSE)?;
        print_write(rt, console, &RESET)?;
        println!(rt)?;
    }
    Ok(())
}

fn print_ranges(rt: &impl Print) -> io::Result<()> {
    print!(rt;
        "\n## Ranges\n\n| range | least and greatest | increment | op code | its parameter |\n|---|---|---|---|---|\n"
    )?;
    for (range, ends, increment, op) in COMPARED {
        print!(rt; "| {range} | {ends} | {increment} | {op:02X} | ")?;
        match op_code(op) {
            Some(code) => println!(rt; "{} |", Written::Width(code.parameter.width(0)))?,
            None => println!(rt; "- |")?,
        }
    }
    Ok(())
}

pub(crate) fn print_machine(rt: &impl Print) -> io::Result<()> {
    println!(rt; "\n# Machine")?;
    print_states(rt)?;
    print!(rt; "{SUCCESSES}{UNITS}")?;
    print_ranges(rt)?;
    print_steps(rt)
}
