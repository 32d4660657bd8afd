// Which targets a range admits, as the calls answer: in each line a machine is opened with a range,
// and the client that holds control writes a target.
use crate::clients::{RANGES, REQUEST_CONTROL, SPEEDS, after, joined};
use record::feature::Feature;
use service::control::Console;
use service::control::ranges::{HeartRateRange, Ranges, SignedRange, SpeedRange};
use std::{fmt, io};

// A machine on which the five targets with a range can be set.
const FEATURE: Feature = Feature {
    features: 0,
    targets: 1 << Feature::TARGET_SPEED
        | 1 << Feature::TARGET_INCLINATION
        | 1 << Feature::TARGET_RESISTANCE
        | 1 << Feature::TARGET_POWER
        | 1 << Feature::TARGET_HEART_RATE,
};

// Steps of 10, from 10 to 20 km/h.
const SPEED: SpeedRange = SpeedRange {
    least: 1000,
    greatest: 2000,
    increment: 10,
};

// All numbers that an i16 holds, where the distance from one end to the other is one step.
const WHOLE: SignedRange = SignedRange {
    least: i16::MIN,
    greatest: i16::MAX,
    increment: u16::MAX,
};

// A range that begins below 0, where no resistance can be written.
const ODD: SignedRange = SignedRange {
    least: -5,
    greatest: 3,
    increment: 2,
};

// Its greatest value is off the steps.
const TENS: HeartRateRange = HeartRateRange {
    least: 0,
    greatest: 25,
    increment: 10,
};

// Its increment is above the whole distance.
const ALONE: HeartRateRange = HeartRateRange {
    least: 60,
    greatest: 70,
    increment: 20,
};

// The line of a range and a target: what a write of the octets gives to client 0, who holds
// control; or the refusal, if no machine is opened with these ranges.
fn print_line(
    rt: &impl Print,
    cells: impl fmt::Display + Drop,
    ranges: Ranges,
    octets: &[u8],
) -> io::Result<()> {
    print!(rt; "| {cells} |")?;
    let reply = Console::open(&FEATURE.to_octets(), ranges, SPEEDS);
    match reply.outcome {
        Ok(()) => {
            let holding = after(joined(reply.console, 0), &REQUEST_CONTROL);
            let said = holding.write(0, octets).response;
            println!(rt; " {:02X} |", said.octets[2])
        }
        Err(refusal) => println!(rt; " refused {} |", refusal.number()),
    }
}

// The line of a range of speeds and a target.
fn print_speed(rt: &impl Print, range: SpeedRange, target: u16) -> io::Result<()> {
    let SpeedRange {
        least,
        greatest,
        increment,
    } = range;
    let cells = format_args!("speed | {least} | {greatest} | {increment} | {target}");
    let ranges = Ranges {
        speed: range,
        ..RANGES
    };
    let [low, high] = target.to_le_bytes();
    print_line(rt, cells, ranges, &[0x02, low, high])
}

// The line of a signed range, by its name, and of a target.
fn print_signed(
    rt: &impl Print,
    name: &str,
    range: SignedRange,
    target: i16,
    ranges: Ranges,
    octets: &[u8],
) -> io::Result<()> {
    let SignedRange {
        least,
        greatest,
        increment,
    } = range;
    let cells = format_args!("{name} | {least} | {greatest} | {increment} | {target}");
    print_line(rt, cells, ranges, octets)
}

// The line of a range of inclinations and a target.
fn print_inclination(rt: &impl Print, range: SignedRange, target: i16) -> io::Result<()> {
    let ranges = Ranges {
        inclination: range,
        ..RANGES
    };
    let [low, high] = target.to_le_bytes();
    print_signed(rt, "inclination", range, target, ranges, &[0x03, low, high])
}

// The line of a range of resistances and a target, which is one unsigned octet.
fn print_resistance(rt: &impl Print, range: SignedRange, target: u8) -> io::Result<()> {
    let ranges = Ranges {
        resistance: range,
        ..RANGES
    };
    print_signed(
        rt,
        "resistance",
        range,
        i16::from(target),
        ranges,
        &[0x04, target],
    )
}

// The line of a range of powers and a target.
fn print_power(rt: &impl Print, range: SignedRange, target: i16) -> io::Result<()> {
    let ranges = Ranges {
        power: range,
        ..RANGES
    };
    let [low, high] = target.to_le_bytes();
    print_signed(rt, "power", range, target, ranges, &[0x05, low, high])
}

// The line of a range of heart rates and a target.
fn print_heart_rate(rt: &impl Print, range: HeartRateRange, target: u8) -> io::Result<()> {
    let HeartRateRange {
        least,
        greatest,
        increment,
    } = range;
    let cells = format_args!("heart rate | {least} | {greatest} | {increment} | {target}");
    let ranges = Ranges {
        heart_rate: range,
        ..RANGES
    };
    print_line(rt, cells, ranges, &[0x06, target])
}

// Steps of 10 and of 1, and both sides of the ends.
fn print_speeds(rt: &impl Print) -> io::Result<()> {
    for target in [990, 1000, 1005, 1010, 2000, 2010] {
        print_speed(rt, SPEED, target)?;
    }
    let ones = SpeedRange {
        increment: 1,
        ..SPEED
    };
    print_speed(rt, ones, 1005)
}

// Of the whole range nothing between the ends is admitted.
fn print_inclinations(rt: &impl Print) -> io::Result<()> {
    for target in [i16::MIN, -32767, 0, 32766, i16::MAX] {
        print_inclination(rt, WHOLE, target)?;
    }
    Ok(())
}

fn print_resistances(rt: &impl Print) -> io::Result<()> {
    for target in 0..=3 {
        print_resistance(rt, ODD, target)?;
    }
    Ok(())
}

fn print_powers(rt: &impl Print) -> io::Result<()> {
    for target in [i16::MIN, -1, i16::MAX] {
        print_power(rt, WHOLE, target)?;
    }
    Ok(())
}

fn print_heart_rates(rt: &impl Print) -> io::Result<()> {
    for (range, target) in [(TENS, 20), (TENS, 25), (ALONE, 60), (ALONE, 70)] {
        print_heart_rate(rt, range, target)?;
    }
    Ok(())
}

// "16 also for an increment of 0", in each range.
fn print_refused(rt: &impl Print) -> io::Result<()> {
    let speed = SpeedRange {
        increment: 0,
        ..SPEED
    };
    print_speed(rt, speed, 1000)?;
    let signed = |least, greatest| SignedRange {
        least,
        greatest,
        increment: 0,
    };
    print_inclination(rt, signed(-30, 150), -30)?;
    print_resistance(rt, signed(-5, 3), 0)?;
    print_power(rt, signed(0, 500), 0)?;
    let heart_rate = HeartRateRange {
        least: 60,
        greatest: 200,
        increment: 0,
    };
    print_heart_rate(rt, heart_rate, 60)
}

pub(crate) fn print_steps(rt: &impl Print) -> io::Result<()> {
    print!(rt;
        "\n## Steps\n\n| range | least | greatest | increment | target | answer |\n|---|---|---|---|---|---|\n"
    )?;
    print_speeds(rt)?;
    print_inclinations(rt)?;
    print_resistances(rt)?;
    print_powers(rt)?;
    print_heart_rates(rt)?;
    print_refused(rt)
}
