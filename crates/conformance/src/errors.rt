// Section 4.10: writes that must be answered with an error.
use crate::bench::{Bench, Exchange, HOLDING, Id, NOTHING, PASS, run};
use std::io;

const GROUP: &str = "SPE/BV-";

// Two parameters of an op code.
type Pair = [&'static [u8]; 2];

// A range: a case's number, values below it and above it, its least and its greatest, which are allowed, and their status.
const RANGES: [(u8, Pair, Pair, u8); 4] = [
    (
        5,
        [b"\x03\x9B\xFF", b"\x03\x97\x00"],
        [b"\x03\x9C\xFF", b"\x03\x96\x00"],
        0x06,
    ),
    (
        6,
        [b"\x04\x09", b"\x04\x65"],
        [b"\x04\x0A", b"\x04\x64"],
        0x07,
    ),
    (
        7,
        [b"\x05\x09\x00", b"\x05\xF5\x01"],
        [b"\x05\x0A\x00", b"\x05\xF4\x01"],
        0x08,
    ),
    (
        8,
        [b"\x06\x3B", b"\x06\xC9"],
        [b"\x06\x3C", b"\x06\xC8"],
        0x09,
    ),
];

// Starting a machine that runs.
fn run_second_start(rt: &impl Print) -> io::Result<()> {
    let exchanges = [
        Exchange(b"\x07", 0x01, Some(0x04)),
        Exchange(b"\x07", 0x04, None),
    ];
    run(rt, Id(GROUP, 1), "", HOLDING, &exchanges, PASS)
}

// Stopping a machine that is stopped. The steps of the test suite do not confirm the first response: "20: a response awaits confirmation (ATT FE)".
fn run_unconfirmed(rt: &impl Print) -> io::Result<()> {
    let mut bench = Bench::begin(rt, Id(GROUP, 2), " steps 3 to 6", HOLDING)?;
    bench.answer(rt, Exchange(b"\x07", 0x01, Some(0x04)))?;
    bench.refused(rt, b"\x08\x01", 20)?;
    bench.finish(rt, "departs (a response awaits confirmation)")
}

// The same with a confirmation after step 4.
fn run_second_stop(rt: &impl Print) -> io::Result<()> {
    let exchanges = [
        Exchange(b"\x07", 0x01, Some(0x04)),
        Exchange(b"\x08\x01", 0x01, Some(0x02)),
        Exchange(b"\x08\x01", 0x04, None),
    ];
    let words = " with step 4 confirmed";
    let verdict = "departs (the first response is confirmed before the next write)";
    run(rt, Id(GROUP, 2), words, HOLDING, &exchanges, verdict)
}

// A write by a client that does not hold control.
fn run_stranger(rt: &impl Print, number: u8, sent: &'static [u8], res: u8) -> io::Result<()> {
    let exchange = Exchange(sent, res, None);
    run(rt, Id(GROUP, number), "", NOTHING, &[exchange], PASS)
}

// Speeds above their range.
fn run_speeds(rt: &impl Print) -> io::Result<()> {
    let exchanges = [
        Exchange(b"\x02\x71\x17", 0x03, None),
        Exchange(b"\x02\xFF\xFF", 0x03, None),
    ];
    run(rt, Id(GROUP, 4), "", HOLDING, &exchanges, PASS)
}

// Inclination, resistance, power and heart rate.
fn run_ranges(rt: &impl Print) -> io::Result<()> {
    for (number, outside, inside, status) in RANGES {
        let id = Id("SPE/BI-", number);
        let refused = outside.map(|sent| Exchange(sent, 0x03, None));
        run(rt, id, " alternatives 1, 3", HOLDING, &refused, PASS)?;
        let allowed = inside.map(|sent| Exchange(sent, 0x01, Some(status)));
        run(rt, id, " alternatives 2, 4", HOLDING, &allowed, PASS)?;
    }
    Ok(())
}

pub(crate) fn run_all(rt: &impl Print) -> io::Result<()> {
    run_second_start(rt)?;
    run_unconfirmed(rt)?;
    run_second_stop(rt)?;
    run_stranger(rt, 3, b"\x81", 0x02)?;
    run_speeds(rt)?;
    run_ranges(rt)?;
    run_stranger(rt, 9, b"\x07", 0x05)
}
