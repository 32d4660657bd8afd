// Three records of a cross trainer, each in three parts, some of which are lost: an open
// collection mixes two records, while a fixed one refuses with 34.
use crate::round::{BLANK, PAYLOAD, Stop, finish, opened};
use output::first;
use record::groups::listed;
use record::layout::CROSS_TRAINER;
use record::record::{Energy, Gain, Inclination, RampAngle, Record, Slope, StepRates};
use record::split::split;
use service::collector::{Collected, Collection, Told, collect};
use std::io;

// The parts of the records 1, 2 and 3 in the order in which they are sent, and whether each
// arrives.
const SENT: [(u8, usize, bool); 9] = [
    (1, 0, false),
    (1, 1, true),
    (1, 2, false),
    (2, 0, true),
    (2, 1, false),
    (2, 2, true),
    (3, 0, true),
    (3, 1, true),
    (3, 2, true),
];

// Record n: all groups, and every value is n.
fn numbered(n: u8) -> Record {
    let wide = u16::from(n);
    let signed = i16::from(n);
    Record {
        kind: CROSS_TRAINER,
        groups: listed(CROSS_TRAINER),
        speed: wide,
        average_speed: wide,
        distance: u32::from(n),
        step_rates: StepRates {
            rate: wide,
            average: wide,
        },
        stride_count: wide,
        gain: Gain {
            positive: wide,
            negative: wide,
        },
        slope: Slope {
            inclination: Inclination(signed),
            ramp_angle: RampAngle(signed),
        },
        resistance: signed,
        power: signed,
        average_power: signed,
        energy: Energy {
            total: wide,
            per_hour: wide,
            per_minute: n,
        },
        heart_rate: n,
        metabolic_equivalent: n,
        elapsed: wide,
        remaining: wide,
        ..BLANK
    }
}

// Splits a part off record n into the lent octets, and prints the beginning of its line.
fn split_off<'a>(rt: &impl Print, n: u8, part: usize, out: &'a mut [u8]) -> Result<&'a [u8], Stop> {
    let extent = split(numbered(n), PAYLOAD, part, out)?;
    print!(rt; "record {n}, part {part} of {}", extent.parts)?;
    Ok(first(out, extent.length))
}

// Prints an answer; for a record, a value from each of its three parts.
fn show_answer(rt: &impl Print, answer: Collected) -> io::Result<()> {
    let dropped = match answer {
        Collected::Waiting { dropped } => {
            print!(rt; ": waiting")?;
            dropped
        }
        Collected::Record { record, dropped } => {
            print!(rt; ": record with distance={}", record.distance)?;
            print!(rt; " power={} speed={}", record.power, record.speed)?;
            dropped
        }
        Collected::Refused { refusal, dropped } => {
            print!(rt; ": refused {}", refusal.number())?;
            dropped
        }
    };
    println!(rt; "{}", if dropped { ", held groups dropped" } else { "" })
}

// Gives a part to a collection; returns the collection after it.
fn give(rt: &impl Print, collection: Collection, octets: &[u8]) -> io::Result<Collection> {
    let step = collect(collection, octets);
    show_answer(rt, step.answer)?;
    Ok(step.next)
}

// Sends the parts to a collection, except those that are lost on their way.
fn send_parts(rt: &impl Print, mut collection: Collection) -> Result<(), Stop> {
    for (n, part, arrives) in SENT {
        let mut out = [0u8; PAYLOAD];
        let octets = split_off(rt, n, part, &mut out)?;
        if arrives {
            collection = give(rt, collection, octets)?;
        } else {
            println!(rt; ": lost")?;
        }
    }
    Ok(())
}

fn run_told(rt: &impl Print, told: Told) -> Result<(), Stop> {
    send_parts(rt, opened(CROSS_TRAINER, told)?)
}

// The fixed collection is told all groups of the kind.
pub(crate) fn run(rt: &impl Print) -> io::Result<()> {
    println!(rt; "== a lost part, open")?;
    finish(rt, run_told(rt, Told::Open))?;
    println!(rt; "== a lost part, fixed")?;
    finish(rt, run_told(rt, Told::Fixed(listed(CROSS_TRAINER))))
}
