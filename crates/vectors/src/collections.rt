// What a collection answers, rule by rule. Most cases are of an indoor bike's average speed (flags 02), cadence (04) and average cadence (08);
// a part whose flags include 01 has More Data 1.
use crate::lines::{octets_of, words_of};
use crate::steps::{after, opened};
use service::collector::Told;
use std::io;

const OPENINGS: [(&str, u8, Told); 10] = [
    ("kind 0", 0, Told::Open),
    ("kind 7", 7, Told::Open),
    ("11 before 35", 7, Told::Fixed(1)),
    ("bit 0", 6, Told::Fixed(1)),
    ("bit 13 of a bike", 6, Told::Fixed(8192)),
    ("bit 15 of a cross trainer", 2, Told::Fixed(32768)),
    ("bit 31", 2, Told::Fixed(2147483648)),
    ("all groups", 6, Told::Fixed(8190)),
    ("all groups", 2, Told::Fixed(32766)),
    ("no group", 1, Told::Fixed(0)),
];

const OPEN: &str = "the sample: 44 00 C4 09 B4 00 FA 00
all groups: FF 00 EE 03 06 04 07 04 47 42 0F E6 FF E5 FF E4 FF / 00 1F E9 03 F6 03 F7 03 10 11 12 FB 03 FC 03
no octets:
one octet: 44
cut short: 44 00 C4
octets after the last group: 03 00 E8 03 01 02 / 04 00 C4 09 B4 00 03
reserved bits: 03 E0 E8 03 / 04 E0 C4 09 B4 00
a group that is held drops all: 07 00 E8 03 B4 00 / 05 00 B5 00 / 00 00 C4 09
in the last part too: 07 00 E8 03 B4 00 / 04 00 C4 09 B5 00
no group that is held: 09 00 B6 00 / 03 00 E8 03 / 04 00 C4 09 B4 00
a part without groups: 03 00 E8 03 / 01 00 / 00 00 C4 09
no group at all: 01 00 / 00 00 C4 09
nothing held after 31: 03 00 E8 03 / 44 / 00 00 C4 09
nothing held after 32: 03 00 E8 03 / 44 00 C4 / 00 00 C4 09
nothing held after a record: 03 00 E8 03 / 04 00 C4 09 B4 00 / 00 00 C4 09
part 2, then 1 and 3 of the next record: 05 00 B4 00 / 03 00 E9 03 / 08 00 C5 09 B7 00";

// A fixed collection that is told bits 1, 2 and 3.
const FIXED: &str = "three parts: 03 00 E8 03 / 05 00 B4 00 / 08 00 C4 09 B6 00
one part: 0E 00 C4 09 E8 03 B4 00 B6 00
octets after the last group: 03 00 E8 03 01 / 0C 00 C4 09 B4 00 B6 00 02 03
reserved bits: 03 E0 E8 03 / 0C E0 C4 09 B4 00 B6 00
a part without groups: 07 00 E8 03 B4 00 / 01 00 / 08 00 C4 09 B6 00
1 held, then 1: 03 00 E8 03 / 03 00 E9 03 / 0C 00 C4 09 B4 00 B6 00
1 and 3 held, then 2: 0B 00 E8 03 B6 00 / 05 00 B4 00 / 00 00 C4 09
2 held, then all: 05 00 B5 00 / 0E 00 C4 09 E8 03 B4 00 B6 00
34, nothing held before: 02 00 C4 09 E8 03
34, 1 held before: 03 00 E8 03 / 00 00 C4 09
34 after a drop: 0B 00 E8 03 B6 00 / 04 00 C4 09 B4 00
33, nothing held before: 11 00 07 00 00
33 before rule 2: 05 00 B4 00 / 13 00 E9 03 07 00 00
33 in the last part: 03 00 E8 03 / 1C 00 C4 09 B4 00 B6 00 07 00 00
33 before 34: 10 00 C4 09 07 00 00
32 before 33: 11 00 07
nothing held after 31: 03 00 E8 03 / 44 / 0C 00 C4 09 B4 00 B6 00
nothing held after 32: 03 00 E8 03 / 05 00 B4 / 0C 00 C4 09 B4 00 B6 00
nothing held after 33: 03 00 E8 03 / 11 00 07 00 00 / 0C 00 C4 09 B4 00 B6 00
nothing held after 34: 03 00 E8 03 / 00 00 C4 09 / 0C 00 C4 09 B4 00 B6 00
nothing held after a record: 0E 00 C4 09 E8 03 B4 00 B6 00 / 00 00 C4 09
part 2, then 1 and 3 of the next record: 05 00 B4 00 / 03 00 E9 03 / 08 00 C5 09 B7 00";

const NONE_TOLD: &str = "no group: 00 00 C4 09 / 01 00 / 00 00 C5 09
a group: 02 00 C4 09 E8 03";

// The cross trainer: "the record, with the last part's direction".
const DIRECTIONS: &str = "two octets of three flags: 00 80
backward, then forward: 03 80 00 E8 03 / 04 00 00 C4 09 01 02 03
forward, then backward: 03 00 00 E8 03 / 04 80 00 C4 09 01 02 03";

const ALL_TOLD: &str = "all groups: 3F 80 00 EE 03 47 42 0F FF 03 00 04 01 04 F2 03 F3 03 / \
C1 9F 00 F8 FF F7 FF E6 FF E5 FF E4 FF F6 03 F7 03 10 11 12 / 00 E0 00 E9 03 FB 03 FC 03";

fn run_openings(rt: &impl Print) -> io::Result<()> {
    for (words, kind, told) in OPENINGS {
        opened(rt, words, kind, told)?;
    }
    Ok(())
}

// Opens a collection, and gives it the notifications of a line.
fn run_line(rt: &impl Print, kind: u8, told: Told, line: &str) -> io::Result<()> {
    let (words, notifications) = words_of(line);
    let mut collection = opened(rt, words, kind, told)?;
    for text in notifications.split('/') {
        let mut space = [0u8; 32];
        collection = after(rt, collection, octets_of(text, &mut space))?;
    }
    Ok(())
}

fn run_lines(rt: &impl Print, kind: u8, told: Told, lines: &str) -> io::Result<()> {
    for line in lines.lines() {
        run_line(rt, kind, told, line)?;
    }
    Ok(())
}

fn run_long(rt: &impl Print) -> io::Result<()> {
    let opened_fixed = opened(rt, "30 before 33", 6, Told::Fixed(14))?;
    let held = after(rt, opened_fixed, b"\x03\x00\xE8\x03")?;
    let none = after(rt, held, &[0xFFu8; 513])?;
    after(rt, none, b"\x0C\x00\xC4\x09\xB4\x00\xB6\x00")?;
    let opened_open = opened(rt, "512 octets", 6, Told::Open)?;
    after(rt, opened_open, &[0u8; 512])?;
    Ok(())
}

pub(crate) fn run_all(rt: &impl Print) -> io::Result<()> {
    println!(rt; "collections")?;
    run_openings(rt)?;
    run_lines(rt, 6, Told::Open, OPEN)?;
    run_lines(rt, 6, Told::Fixed(14), FIXED)?;
    run_lines(rt, 6, Told::Fixed(0), NONE_TOLD)?;
    run_lines(rt, 2, Told::Open, DIRECTIONS)?;
    run_lines(rt, 2, Told::Fixed(32766), ALL_TOLD)?;
    run_long(rt)
}
