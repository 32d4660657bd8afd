// A service crew calibrates an indoor bike by coasting, call by call, in the code that a maker's
// console would have. The output is compared with the file `stdout`, which tools/spindown.py
// writes from documents 01 and 02 alone.
#![tactic(auto)]

mod runs;
mod show;

use crate::runs::{coast, fail, finish_at_once, ignore, leave, reset, take_control};
use crate::show::Session;
use output::{GoesOn, Octets};
use record::feature::Feature;
use service::control::Console;
use service::control::ranges::{HeartRateRange, Ranges, SignedRange, SpeedRange};
use service::control::spin_down::TargetSpeeds;
use std::io;

// What this bike sends, and what can be set on it: spin down alone.
const FEATURE: Feature = Feature {
    features: 1 << Feature::CADENCE | 1 << Feature::POWER,
    targets: 1 << Feature::TARGET_SPIN_DOWN,
};

// No target can be set, so every range is 0 to 0, in steps of 1.
const UNUSED: SignedRange = SignedRange {
    least: 0,
    greatest: 0,
    increment: 1,
};

const RANGES: Ranges = Ranges {
    speed: SpeedRange {
        least: 0,
        greatest: 0,
        increment: 1,
    },
    inclination: UNUSED,
    resistance: UNUSED,
    power: UNUSED,
    heart_rate: HeartRateRange {
        least: 0,
        greatest: 0,
        increment: 1,
    },
};

// The crew stops pedalling at 20 km/h, and the run is over at 10 km/h.
const SPEEDS: TargetSpeeds = TargetSpeeds {
    low: 1000,
    high: 2000,
};

// The session: its runs in turn, all on one console.
fn calibrate(session: &mut Session<impl Print>) -> io::Result<()> {
    take_control(session)?;
    coast(session)?;
    fail(session)?;
    ignore(session)?;
    finish_at_once(session)?;
    reset(session)?;
    leave(session)
}

fn main(rt: HostRuntime) -> io::Result<()> {
    let rt = GoesOn(rt);
    let octets = FEATURE.to_octets();
    println!(rt; "Feature value:{}", Octets(&octets))?;
    let reply = Console::open(&octets, RANGES, SPEEDS);
    match reply.outcome {
        Ok(()) => {
            let console = reply.console;
            let mut session = Session { rt, console };
            session.state("a machine is opened")?;
            calibrate(&mut session)
        }
        Err(refusal) => println!(rt; "refused {}", refusal.number()),
    }
}
