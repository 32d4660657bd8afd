// What to write for a spin down and what comes back, where each call leads a run, and which target
// speeds a machine can have: as the calls answer.
use crate::clients::{RANGES, REQUEST_CONTROL, SPEEDS, SUCCESS, after, joined};
use output::Octets;
use output::state::RunWords;
use record::feature::Feature;
use service::control::counted::Counted;
use service::control::spin_down::{Run, TargetSpeeds};
use service::control::{Console, Reply};
use std::{fmt, io};

const START: [u8; 2] = [0x13, 1];

const IGNORE: [u8; 2] = [0x13, 2];

const NEITHER: [u8; 2] = [0x13, 3];

// The parameter is missing.
const BARE: [u8; 1] = [0x13];

const RESET: [u8; 1] = [0x01];

// The target bit of spin down.
const SPIN_DOWN: u32 = 1 << Feature::TARGET_SPIN_DOWN;

// The columns of the runs.
const RUNS: [Run; 3] = [Run::Off, Run::Quiet, Run::Warned];

// A machine is opened with target bits and target speeds.
fn opening(targets: u32, speeds: TargetSpeeds) -> Reply {
    let feature = Feature {
        features: 0,
        targets,
    };
    Console::open(&feature.to_octets(), RANGES, speeds)
}

// A console whose client 0 holds control, and where client 1 can write too.
fn ready(targets: u32) -> Console {
    let opened = opening(targets, SPEEDS).console;
    after(joined(joined(opened, 0), 1), &REQUEST_CONTROL)
}

// The same with no run, with one that has said nothing, or with one that has said 4.
fn in_run(run: Run) -> Console {
    let console = ready(SPIN_DOWN);
    match run {
        Run::Off => console,
        Run::Quiet => after(console, &START),
        Run::Warned => after(console, &START).flywheel(SPEEDS.high).console,
    }
}

// The octets of a response or a status, or that there is none.
#[derive(Clone, Copy)]
struct Said(Counted);

impl fmt::Display for Said {
    fn fmt<W: fmt::Write>(&self, f: &mut fmt::Formatter<W>) -> fmt::Result {
        match self.0.octets() {
            [] => write!(f, " none"),
            sent => write!(f, "{}", Octets(sent)),
        }
    }
}

// The line of a write: its octets, where it is made, the response, the status and the run after it.
fn print_write(
    rt: &impl Print,
    console: Console,
    client: u8,
    octets: &[u8],
    place: &str,
) -> io::Result<()> {
    let reply = console.write(client, octets);
    println!(rt;
        "|{} | {place} |{} |{} | {} |",
        Octets(octets),
        Said(reply.response),
        Said(reply.status),
        RunWords(reply.console.machine.run),
    )
}

fn print_writes(rt: &impl Print) -> io::Result<()> {
    print!(rt;
        "\n## Writes\n\n| write | where | response | status | after it |\n|---|---|---|---|---|\n"
    )?;
    let console = ready(SPIN_DOWN);
    let running = in_run(Run::Quiet);
    print_write(rt, ready(0), 0, &START, "target bit 15 is 0")?;
    print_write(rt, console, 1, &START, "the client does not hold control")?;
    print_write(rt, console, 0, &BARE, "the parameter is missing")?;
    print_write(rt, console, 0, &NEITHER, "the parameter is neither 1 nor 2")?;
    print_write(rt, console, 0, &START, "there is no run: it starts")?;
    print_write(rt, running, 0, &START, "there is a run")?;
    print_write(rt, running, 0, &IGNORE, "there is a run: it is ignored")?;
    print_write(rt, console, 0, &IGNORE, "there is no run")
}

// The cell of a call in a run: its result if that is not success, otherwise its status, if there is
// one, and the run after it.
#[derive(Clone, Copy)]
struct Led(Reply);

impl fmt::Display for Led {
    fn fmt<W: fmt::Write>(&self, f: &mut fmt::Formatter<W>) -> fmt::Result {
        let Reply {
            console,
            response,
            status,
            ..
        } = self.0;
        if response.count > 0 && response.octets[2] != SUCCESS {
            return write!(f, "result {:02X}", response.octets[2]);
        }
        if status.count > 0 {
            write!(f, "status{}: ", Said(status))?;
        }
        write!(f, "{}", RunWords(console.machine.run))
    }
}

// The line of a call, which is made in each of the runs.
fn print_line<F: Fn(Console) -> Reply + Drop>(
    rt: &impl Print,
    words: &str,
    call: F,
) -> io::Result<()>
    requires { F.IsAlwaysCallable call }
{
    print!(rt; "| {words} |")?;
    for run in RUNS {
        print!(rt; " {} |", Led(call(in_run(run))))?;
    }
    println!(rt)
}

fn print_runs(rt: &impl Print) -> io::Result<()> {
    print!(rt;
        "\n## Runs\n\n| call | no run | a run that has said nothing | a run that has said 4 |\n|---|---|---|---|\n"
    )?;
    let TargetSpeeds { low, high } = SPEEDS;
    print_line(rt, "write 13 01", |console| console.write(0, &START))?;
    print_line(rt, "write 13 02", |console| console.write(0, &IGNORE))?;
    print_line(rt, "write 01", |console| console.write(0, &RESET))?;
    print_line(
        rt,
        "the holder disconnects",
        |console| console.disconnect(0),
    )?;
    print_line(rt, "another client disconnects", |console| {
        console.disconnect(1)
    })?;
    print_line(rt, "speed above high", |console| {
        console.flywheel(high + 1)
    })?;
    print_line(rt, "speed at or below high, above low", |console| {
        console.flywheel(high)
    })?;
    print_line(rt, "speed at or below low", |console| {
        console.flywheel(low)
    })
}

fn print_targets(rt: &impl Print) -> io::Result<()> {
    print!(rt; "\n## Target speeds\n\n| low | high | opening a machine |\n|---|---|---|\n")?;
    let high = 2000;
    for low in [1999, 2000, 2001] {
        print!(rt; "| {low} | {high} |")?;
        match opening(SPIN_DOWN, TargetSpeeds { low, high }).outcome {
            Ok(()) => println!(rt; " done |")?,
            Err(refusal) => println!(rt; " refused {} |", refusal.number())?,
        }
    }
    Ok(())
}

pub(crate) fn print_spin_down(rt: &impl Print) -> io::Result<()> {
    println!(rt; "\n# Spin down")?;
    print_writes(rt)?;
    print_runs(rt)?;
    print_targets(rt)
}
