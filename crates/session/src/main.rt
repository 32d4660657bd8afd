// Two clients use a treadmill's control point, call by call, in the code that a maker's console
// would have. The output is compared with the file `stdout`, which tools/session.py writes from
// documents 01 and 02 alone.
#![tactic(auto)]

mod show;

use crate::show::Session;
use output::{GoesOn, Octets};
use record::feature::Feature;
use service::control::Console;
use service::control::ranges::{HeartRateRange, Ranges, SignedRange, SpeedRange};
use service::control::spin_down::TargetSpeeds;
use std::io;

// What this treadmill sends, and what can be set on it: no resistance and no heart rate.
const FEATURE: Feature = Feature {
    features: 1 << Feature::AVERAGE_SPEED
        | 1 << Feature::DISTANCE
        | 1 << Feature::INCLINATION
        | 1 << Feature::ELAPSED
        | 1 << Feature::BELT_FORCE_AND_POWER_OUTPUT,
    targets: 1 << Feature::TARGET_SPEED
        | 1 << Feature::TARGET_INCLINATION
        | 1 << Feature::TARGET_POWER,
};

// Speed 1 to 20 km/h in steps of 0.1 km/h, inclination -3 to 15 % in steps of 0.5 %, and any power
// up to 500 W.
const RANGES: Ranges = Ranges {
    speed: SpeedRange {
        least: 100,
        greatest: 2000,
        increment: 10,
    },
    inclination: SignedRange {
        least: -30,
        greatest: 150,
        increment: 5,
    },
    resistance: SignedRange {
        least: 0,
        greatest: 0,
        increment: 1,
    },
    power: SignedRange {
        least: 0,
        greatest: 500,
        increment: 1,
    },
    heart_rate: HeartRateRange {
        least: 0,
        greatest: 0,
        increment: 1,
    },
};

// The target speeds of a spin down, which this treadmill does not support: 10 and 20 km/h.
const SPEEDS: TargetSpeeds = TargetSpeeds {
    low: 1000,
    high: 2000,
};

// What the clients write: an op code and its parameter, least octet first.
const REQUEST_CONTROL: [u8; 1] = [0x00];

const RESET: [u8; 1] = [0x01];

const SPEED_1000: [u8; 3] = [0x02, 0xE8, 0x03];

const SPEED_1005: [u8; 3] = [0x02, 0xED, 0x03];

const SPEED_2010: [u8; 3] = [0x02, 0xDA, 0x07];

const RESISTANCE_50: [u8; 2] = [0x04, 0x32];

const START_OR_RESUME: [u8; 1] = [0x07];

const STOP: [u8; 2] = [0x08, 0x01];

const PAUSE: [u8; 2] = [0x08, 0x02];

// Client 0 takes control and sets a speed; one between two steps is answered 03, and so is one
// above the range. The speed that was set stays.
fn begin(session: &mut Session<impl Print>) -> io::Result<()> {
    session.connect(0)?;
    session.turn_indications_on(0)?;
    session.write(0, &REQUEST_CONTROL)?;
    session.state("now")?;
    session.confirm(0)?;
    session.write(0, &SPEED_1000)?;
    session.state("now")?;
    session.confirm(0)?;
    session.write(0, &SPEED_1005)?;
    session.confirm(0)?;
    session.write(0, &SPEED_2010)?;
    session.confirm(0)
}

// Client 0 starts the machine. What client 1 writes is refused with 20 until that response is
// confirmed; after that it is answered 04 and 05, since client 0 holds control.
fn start(session: &mut Session<impl Print>) -> io::Result<()> {
    session.write(0, &START_OR_RESUME)?;
    session.state("now")?;
    session.connect(1)?;
    session.turn_indications_on(1)?;
    session.write(1, &REQUEST_CONTROL)?;
    session.confirm(0)?;
    session.write(1, &REQUEST_CONTROL)?;
    session.confirm(1)?;
    session.write(1, &START_OR_RESUME)?;
    session.confirm(1)
}

// Client 0 starts the machine again, which is answered 04, since it runs already; pauses; resumes;
// sets a resistance, which is answered 02, since this machine does not have it; and stops.
fn drive(session: &mut Session<impl Print>) -> io::Result<()> {
    session.write(0, &START_OR_RESUME)?;
    session.confirm(0)?;
    session.write(0, &PAUSE)?;
    session.state("now")?;
    session.confirm(0)?;
    session.write(0, &START_OR_RESUME)?;
    session.state("now")?;
    session.confirm(0)?;
    session.write(0, &RESISTANCE_50)?;
    session.confirm(0)?;
    session.write(0, &STOP)?;
    session.state("now")?;
    session.confirm(0)
}

// Client 0 disconnects, which frees control: client 1 takes it, and resets the machine.
fn hand_over(session: &mut Session<impl Print>) -> io::Result<()> {
    session.disconnect(0)?;
    session.state("now")?;
    session.write(1, &REQUEST_CONTROL)?;
    session.state("now")?;
    session.confirm(1)?;
    session.write(1, &RESET)?;
    session.state("now")?;
    session.confirm(1)
}

fn main(rt: HostRuntime) -> io::Result<()> {
    let rt = GoesOn(rt);
    let octets = FEATURE.to_octets();
    println!(rt; "Feature value:{}", Octets(&octets))?;
    let reply = Console::open(&octets, RANGES, SPEEDS);
    match reply.outcome {
        Ok(()) => {
            let mut session = Session {
                rt,
                console: reply.console,
            };
            session.state("a machine is opened")?;
            begin(&mut session)?;
            start(&mut session)?;
            drive(&mut session)?;
            hand_over(&mut session)
        }
        Err(refusal) => println!(rt; "refused {}", refusal.number()),
    }
}
