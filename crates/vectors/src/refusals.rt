// What is refused, with which number, and what stays unchanged.
use crate::lines::{octets_of, words_of};
use crate::printing::{LENT, UNTOUCHED, is_untouched, unchanged, yes};
use crate::samples::{Form, Values, put_number};
use output::{Octets, first};
use record::layout::{AVERAGE_SPEED, CADENCE, DISTANCE, PACE};
use record::notification::{Part, read};
use record::numbers::numbers_of;
use record::record::Record;
use record::split::{Extent, split};
use std::io;

// Notifications of a kind, each with its words before it. "All other bits are reserved: written 0, ignored when read." "Octets after the last named
// group are ignored."
const NOTIFICATIONS: [(u8, &str); 5] = [
    (0, "kind 0: 00 00"),
    (7, "kind 7: 00 00"),
    (1, "no octets:"),
    (
        2,
        "two octets of three flags: 00 80
plain: 00 81 00 C4 09 85 FF
both: 00 81 FF C4 09 85 FF 01 02 03",
    ),
    (
        6,
        "one octet: 44
cut short: 44 00 C4
plain: 44 00 C4 09 B4 00 FA 00
reserved bits: 44 E0 C4 09 B4 00 FA 00
octets after: 44 00 C4 09 B4 00 FA 00 01 02 03
both: 44 E0 C4 09 B4 00 FA 00 01 02 03",
    ),
];

// Words; a kind, groups and a direction; a payload, a part and the number of octets lent.
type Split = (&'static str, (u8, u32, u8), (usize, usize, usize));

const RANGES: [Split; 9] = [
    ("kind 0", (0, 0, 0), (20, 0, 64)),
    ("kind 7", (7, 0, 0), (20, 0, 64)),
    ("payload 19", (6, 0, 0), (19, 0, 64)),
    ("payload 513", (6, 0, 0), (513, 0, 64)),
    ("payload 512", (6, 0, 0), (512, 0, 64)),
    ("bit 0", (1, 1, 0), (20, 0, 64)),
    ("bit 13 of a treadmill", (1, 8192, 0), (20, 0, 64)),
    ("bit 15 of a cross trainer", (2, 32768, 0), (20, 0, 64)),
    ("bit 31", (2, 2147483648, 0), (20, 0, 64)),
];

// Words, a treadmill's groups, and a field with the number that it is changed to.
const CHANGED: [(&str, u32, u8, u32); 6] = [
    ("average speed 1, absent", 0, AVERAGE_SPEED, 1),
    ("cadence 1, of another kind", 0, CADENCE, 1),
    ("pace 255", 32, PACE, 255),
    ("pace 256", 32, PACE, 256),
    ("distance 16777215", 4, DISTANCE, 16777215),
    ("distance 16777216", 4, DISTANCE, 16777216),
];

const DIRECTIONS_AND_ROOM: [Split; 7] = [
    ("direction 1 of a treadmill", (1, 0, 1), (20, 0, 64)),
    ("direction 2 of a cross trainer", (2, 0, 2), (20, 0, 64)),
    ("no such part", (1, 8190, 0), (20, 2, 64)),
    ("one octet short", (1, 8190, 0), (20, 0, 16)),
    ("long enough", (1, 8190, 0), (20, 0, 17)),
    ("longer", (1, 8190, 0), (20, 0, 64)),
    ("no octets lent", (1, 8190, 0), (20, 0, 0)),
];

// "Where several apply, the splitter's order is 11, 12, 13, 15, 14".
const ORDER: [Split; 6] = [
    ("order", (7, 0, 1), (19, 9, 0)),
    ("order", (1, 0, 1), (19, 9, 0)),
    ("order", (1, 0, 1), (20, 9, 0)),
    ("order", (1, 0, 0), (20, 9, 0)),
    ("order", (1, 0, 0), (20, 0, 0)),
    ("order", (1, 0, 0), (20, 0, 4)),
];

// What a notification's flags give, and three of the values.
fn print_part(rt: &impl Print, part: Part, r: Record) -> io::Result<()> {
    print!(rt; " groups={} direction={}", part.groups, part.direction)?;
    print!(rt; " last={} speed={}", yes(part.last), r.speed)?;
    println!(rt; " cadence={} power={}", r.cadence, r.power)
}

// Reads a notification when every number held is 7.
fn read_case(rt: &impl Print, words: &str, kind: u8, notification: &[u8]) -> io::Result<()> {
    print!(rt; "{words}: kind={kind} length={}", notification.len())?;
    let before = [7u32; 31];
    let mut held = before;
    match read(kind, notification, &mut held) {
        Ok(part) => {
            let form = Form {
                kind,
                groups: part.groups,
                direction: part.direction,
            };
            print_part(rt, part, form.with(&held))
        }
        Err(refusal) => {
            let same = held == before;
            println!(rt; " refused={} held={}", refusal.number(), unchanged(same))
        }
    }
}

fn read_lines(rt: &impl Print, kind: u8, lines: &str) -> io::Result<()> {
    for line in lines.lines() {
        let (words, text) = words_of(line);
        let mut space = [0u8; 32];
        read_case(rt, words, kind, octets_of(text, &mut space))?;
    }
    Ok(())
}

fn read_cases(rt: &impl Print) -> io::Result<()> {
    for (kind, lines) in NOTIFICATIONS {
        read_lines(rt, kind, lines)?;
    }
    read_case(rt, "513 octets", 6, &[0u8; 513])?;
    read_case(rt, "512 octets", 6, &[0u8; 512])
}

// Splits off a part, and prints it and whether the octets past it are as they were lent; or a refusal, and whether all of them are.
fn split_case(
    rt: &impl Print,
    words: &str,
    r: Record,
    (payload, part, room): (usize, usize, usize),
) -> io::Result<()> {
    let form = Form::from(r);
    print!(rt; "{words}: {form} payload={payload} part={part} room={room}")?;
    let mut buffer = [UNTOUCHED; LENT];
    match split(r, payload, part, &mut buffer[..room.min(LENT)]) {
        Ok(Extent { length, parts }) => {
            let octets = Octets(first(&buffer, length));
            let past = unchanged(is_untouched(&buffer, length));
            println!(rt; " parts={parts} length={length}:{octets} past={past}")
        }
        Err(refusal) => {
            let lent = unchanged(is_untouched(&buffer, 0));
            println!(rt; " refused={} lent={lent}", refusal.number())
        }
    }
}

// A part of the record in which each present field has its own number.
fn split_own(rt: &impl Print, cases: &[Split]) -> io::Result<()> {
    for &(words, (kind, groups, direction), lent) in cases {
        let form = Form {
            kind,
            groups,
            direction,
        };
        split_case(rt, words, form.sample(Values::Own), lent)?;
    }
    Ok(())
}

// The same for a treadmill, with one field changed.
fn split_changed(rt: &impl Print) -> io::Result<()> {
    for (words, groups, field, x) in CHANGED {
        let form = Form {
            kind: 1,
            groups,
            direction: 0,
        };
        let mut numbers = numbers_of(form.sample(Values::Own));
        put_number(&mut numbers, field, x);
        split_case(rt, words, form.with(&numbers), (20, 0, 64))?;
    }
    Ok(())
}

pub(crate) fn run_all(rt: &impl Print) -> io::Result<()> {
    println!(rt; "notifications")?;
    read_cases(rt)?;
    println!(rt; "splits")?;
    split_own(rt, &RANGES)?;
    split_changed(rt)?;
    split_own(rt, &DIRECTIONS_AND_ROOM)?;
    split_own(rt, &ORDER)
}
