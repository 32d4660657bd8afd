// Section 4.8: the status octets, each caused by a write, and those of spin down by flywheel speeds.
use crate::bench::{Bench, Case, HOLDING, Id, PASS, PAUSED, RUNNING, run_cases, run_level};
use std::io;

const GROUP: &str = "FMSN/BV-";

const STOPS: [Case; 3] = [
    (1, HOLDING, b"\x01", Some(0x01)),
    (2, RUNNING, b"\x08\x01", Some(0x02)),
    (3, RUNNING, b"\x08\x02", Some(0x02)),
];

// The cases before and after that of the resistance level.
const BEFORE_LEVEL: [Case; 4] = [
    (5, PAUSED, b"\x07", Some(0x04)),
    (6, HOLDING, b"\x02\x88\x13", Some(0x05)),
    (7, HOLDING, b"\x03\x0A\x00", Some(0x06)),
    (8, HOLDING, b"\x04\x32", Some(0x07)),
];

const AFTER_LEVEL: [Case; 12] = [
    (9, HOLDING, b"\x05\x64\x00", Some(0x08)),
    (10, HOLDING, b"\x06\x87", Some(0x09)),
    (11, HOLDING, b"\x09\xF4\x01", Some(0x0A)),
    (12, HOLDING, b"\x0A\xD0\x07", Some(0x0B)),
    (13, HOLDING, b"\x0B\xD0\x07", Some(0x0C)),
    (14, HOLDING, b"\x0C\x88\x13\x00", Some(0x0D)),
    (15, HOLDING, b"\x0D\x10\x0E", Some(0x0E)),
    (16, HOLDING, b"\x0E\x08\x07\x08\x07", Some(0x0F)),
    (17, HOLDING, b"\x0F\xF4\x01\x58\x02\x08\x07", Some(0x10)),
    (
        18,
        HOLDING,
        b"\x10\x58\x02\xB0\x04\xB0\x04\x58\x02\x2C\x01",
        Some(0x11),
    ),
    (19, HOLDING, b"\x11\x10\x27\xF4\x01\x01\x64", Some(0x12)),
    (20, HOLDING, b"\x12\xC8\x00", Some(0x13)),
];

const LAST: Case = (22, HOLDING, b"\x14\xC8\x00", Some(0x15));

// "Any value from 0x01 to 0x04": 4 at the high target speed, and 2 at the low one.
fn run_spin_down(rt: &impl Print) -> io::Result<()> {
    let mut bench = Bench::begin(rt, Id(GROUP, 21), "", HOLDING)?;
    bench.start(rt)?;
    bench.feed(rt, 2000, 0x04)?;
    bench.feed(rt, 1000, 0x02)?;
    bench.finish(rt, PASS)
}

// Status FF does not occur.
pub(crate) fn run_all(rt: &impl Print) -> io::Result<()> {
    run_cases(rt, GROUP, &STOPS)?;
    println!(rt; "{}: outside (no call is the safety key)", Id(GROUP, 4))?;
    run_cases(rt, GROUP, &BEFORE_LEVEL)?;
    run_level(rt, Id(GROUP, 25))?;
    run_cases(rt, GROUP, &AFTER_LEVEL)?;
    run_spin_down(rt)?;
    run_cases(rt, GROUP, &[LAST])?;
    println!(rt; "{}: outside (no call revokes control)", Id(GROUP, 23))?;
    println!(rt;
        "{}: outside (radio: to whom a status is sent)",
        Id(GROUP, 24)
    )
}
