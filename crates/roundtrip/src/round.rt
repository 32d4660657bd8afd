// A record split into its parts, and the parts collected into a record again: the same for every
// kind.
use listing::lines::{LONGEST_LINES, put_record, put_refused};
use output::{Ascii, Octets, first};
use record::record::{
    Climb, Energy, Force, Gain, Inclination, RampAngle, Record, Slope, StepRates, Stroke,
};
use record::refusal::Refusal;
use record::split::{MOST_PARTS, split};
use service::collector::{Collected, Collection, Told, collect, open};
use std::io;
use text::text::Sheet;

// The most octets of a notification; 20 is the least payload that the splitter takes.
pub(crate) const PAYLOAD: usize = 20;

// No optional group, and every value 0.
pub(crate) const BLANK: Record = Record {
    kind: 0,
    groups: 0,
    direction: 0,
    speed: 0,
    climb: Climb {
        floors: 0,
        steps: 0,
    },
    stroke: Stroke { rate: 0, count: 0 },
    average_speed: 0,
    distance: 0,
    slope: Slope {
        inclination: Inclination(0),
        ramp_angle: RampAngle(0),
    },
    gain: Gain {
        positive: 0,
        negative: 0,
    },
    pace: 0,
    average_pace: 0,
    energy: Energy {
        total: 0,
        per_hour: 0,
        per_minute: 0,
    },
    heart_rate: 0,
    metabolic_equivalent: 0,
    elapsed: 0,
    remaining: 0,
    force: Force {
        belt: 0,
        power_output: 0,
    },
    step_rates: StepRates {
        rate: 0,
        average: 0,
    },
    stride_count: 0,
    resistance: 0,
    power: 0,
    average_power: 0,
    average_stroke_rate: 0,
    cadence: 0,
    average_cadence: 0,
};

// Why a record does not get through: it is refused, or standard output fails.
#[derive(Drop)]
pub(crate) enum Stop {
    Refused(Refusal),
    Output(io::Error),
}

impl From<Refusal> for Stop {
    fn from(refusal: Refusal) -> Stop {
        Stop::Refused(refusal)
    }
}

impl From<io::Error> for Stop {
    fn from(error: io::Error) -> Stop {
        Stop::Output(error)
    }
}

// Ends a run: prints the line of a refusal, and gives back what standard output fails with.
pub(crate) fn finish(rt: &impl Print, ran: Result<(), Stop>) -> io::Result<()> {
    match ran {
        Ok(()) => Ok(()),
        Err(Stop::Refused(refusal)) => show_refused(rt, refusal),
        Err(Stop::Output(error)) => Err(error),
    }
}

// The lines of a refusal; then those of a record. They are two functions: one that takes what to put as a closure was tried, and its proof
// did not close; nor did it with `as_bytes` for `first`.
fn show_refused(rt: &impl Print, refusal: Refusal) -> io::Result<()> {
    let mut lines = [0u8; LONGEST_LINES];
    let mut sheet = Sheet::new(&mut lines);
    put_refused(&mut sheet, refusal);
    let length = sheet.at;
    print!(rt; "{}", Ascii(first(&lines, length)))
}

fn show_record(rt: &impl Print, record: Record) -> io::Result<()> {
    let mut lines = [0u8; LONGEST_LINES];
    let mut sheet = Sheet::new(&mut lines);
    put_record(&mut sheet, 1, record);
    let length = sheet.at;
    print!(rt; "{}", Ascii(first(&lines, length)))
}

// A collection that holds nothing.
pub(crate) fn opened(kind: u8, told: Told) -> Result<Collection, Refusal> {
    let opened = open(kind, told);
    opened.answer?;
    Ok(opened.collection)
}

// Sends one part of a record, which here means printing it; returns the number of parts.
fn send(rt: &impl Print, record: Record, part: usize) -> Result<usize, Stop> {
    let mut out = [0u8; PAYLOAD];
    let extent = split(record, PAYLOAD, part, &mut out)?;
    let parts = extent.parts;
    let octets = Octets(first(&out, extent.length));
    println!(rt; "part={part} of {parts}:{octets}")?;
    Ok(parts)
}

// Sends a record: its parts from 0 on, as many as the answers give. No record has more than
// MOST_PARTS.
fn send_parts(rt: &impl Print, record: Record) -> Result<(), Stop> {
    for part in 0..MOST_PARTS {
        if send(rt, record, part)? <= part + 1 {
            break;
        }
    }
    Ok(())
}

// Gives the parts of a record to a collection, one after the other, until a record comes out, and
// prints it.
fn collect_parts(rt: &impl Print, record: Record) -> Result<(), Stop> {
    let mut collection = opened(record.kind, Told::Open)?;
    for part in 0..MOST_PARTS {
        let mut out = [0u8; PAYLOAD];
        let extent = split(record, PAYLOAD, part, &mut out)?;
        let step = collect(collection, first(&out, extent.length));
        match step.answer {
            Collected::Waiting { .. } => collection = step.next,
            Collected::Record { record, .. } => return Ok(show_record(rt, record)?),
            Collected::Refused { refusal, .. } => return Err(Stop::Refused(refusal)),
        }
    }
    Ok(())
}

fn run(rt: &impl Print, record: Record) -> Result<(), Stop> {
    send_parts(rt, record)?;
    collect_parts(rt, record)
}

// Splits a record at payload 20, collects its parts, and prints the parts and the record that
// comes out, or the number of a refusal.
pub(crate) fn split_and_collect(rt: &impl Print, record: Record) -> io::Result<()> {
    finish(rt, run(rt, record))
}
