// Section 4.9: the procedures of the control point, which succeed for a client that has requested control.
use crate::bench::{
    Bench, Case, Exchange, HOLDING, Id, NOTHING, PASS, RUNNING, run_cases, run_level,
};
use std::io;

const GROUP: &str = "CW/BV-";

// The cases before and after that of the resistance level.
const BEFORE_LEVEL: [Case; 4] = [
    (1, NOTHING, b"\x00", None),
    (2, HOLDING, b"\x01", Some(0x01)),
    (3, HOLDING, b"\x02\xE8\x03", Some(0x05)),
    (4, HOLDING, b"\x03\xFB\xFF", Some(0x06)),
];

const AFTER_LEVEL: [Case; 15] = [
    (6, HOLDING, b"\x05\xC8\x00", Some(0x08)),
    (7, HOLDING, b"\x06\x78", Some(0x09)),
    (8, HOLDING, b"\x07", Some(0x04)),
    (9, RUNNING, b"\x08\x01", Some(0x02)),
    (10, RUNNING, b"\x08\x02", Some(0x02)),
    (11, HOLDING, b"\x09\x2C\x01", Some(0x0A)),
    (12, HOLDING, b"\x0A\x10\x27", Some(0x0B)),
    (13, HOLDING, b"\x0B\xE8\x03", Some(0x0C)),
    (14, HOLDING, b"\x0C\x70\x11\x01", Some(0x0D)),
    (15, HOLDING, b"\x0D\x08\x07", Some(0x0E)),
    (16, HOLDING, b"\x0E\x2C\x01\x58\x02", Some(0x0F)),
    (17, HOLDING, b"\x0F\x2C\x01\x58\x02\x84\x03", Some(0x10)),
    (
        18,
        HOLDING,
        b"\x10\x3C\x00\x78\x00\xB4\x00\xF0\x00\x2C\x01",
        Some(0x11),
    ),
    (19, HOLDING, b"\x11\x18\xFC\x2C\x01\x28\x33", Some(0x12)),
    (20, HOLDING, b"\x12\x3A\x52", Some(0x13)),
];

const LAST: Case = (22, HOLDING, b"\x14\xB4\x00", Some(0x15));

// Spin down, with "0x01 or 0x02": a start, and then an ignore.
fn run_spin_down(rt: &impl Print) -> io::Result<()> {
    let mut bench = Bench::begin(rt, Id(GROUP, 21), "", HOLDING)?;
    bench.start(rt)?;
    bench.exchange(rt, Exchange(b"\x13\x02", 0x01, None))?;
    bench.finish(rt, PASS)
}

pub(crate) fn run_all(rt: &impl Print) -> io::Result<()> {
    run_cases(rt, GROUP, &BEFORE_LEVEL)?;
    run_level(rt, Id(GROUP, 5))?;
    run_cases(rt, GROUP, &AFTER_LEVEL)?;
    run_spin_down(rt)?;
    run_cases(rt, GROUP, &[LAST])
}
