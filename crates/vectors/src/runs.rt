// Records split into parts, and each part read back.
use crate::printing::{LENT, UNTOUCHED};
use crate::samples::{Form, Values};
use output::{Octets, first};
use record::groups::{BITS, has, listed};
use record::notification::{Part, read};
use record::record::Record;
use record::refusal::Refusal;
use record::split::{Extent, MOST_PARTS, split};
use std::io;

// The kinds, and the cross trainer's two directions.
const KINDS: [(u8, u8); 7] = [(1, 0), (2, 0), (2, 1), (3, 0), (4, 0), (5, 0), (6, 0)];

// "Numbers to hold against the code": kinds, directions and payloads.
const TABLE: [(u8, u8, usize); 8] = [
    (1, 0, 20),
    (2, 1, 20),
    (3, 0, 20),
    (4, 0, 20),
    (5, 0, 20),
    (6, 0, 20),
    (6, 0, 29),
    (6, 0, 30),
];

// A part that was split off a record and read: its octets in a buffer of its own with their extent, since there is no heap.
#[derive(Clone, Copy)]
struct Run {
    octets: [u8; LENT],
    extent: Extent,
    read: Part,
}

// Splits off a part of a record, and reads it into the numbers held.
fn run_part(r: Record, payload: usize, part: usize, held: &mut [u32; 31]) -> Result<Run, Refusal> {
    let mut octets = [UNTOUCHED; LENT];
    let extent = split(r, payload, part, &mut octets)?;
    let read = read(r.kind, first(&octets, extent.length), held)?;
    Ok(Run {
        octets,
        extent,
        read,
    })
}

// Runs the parts of a record up to the last, and compares the record with what they give.
fn run_record(rt: &impl Print, r: Record, payload: usize) -> io::Result<()> {
    let form = Form::from(r);
    let mut held = [0u32; 31];
    let mut groups = 0;
    for part in 0..MOST_PARTS {
        let run = match run_part(r, payload, part, &mut held) {
            Ok(run) => run,
            Err(refusal) => return println!(rt; " refused={}", refusal.number()),
        };
        let Extent { length, parts } = run.extent;
        let octets = Octets(first(&run.octets, length));
        println!(rt; "{form} payload={payload} part={part} of {parts} length={length}:{octets}")?;
        groups |= run.read.groups;
        if run.read.last {
            let direction = run.read.direction;
            let back = Form {
                groups,
                direction,
                ..form
            };
            let same = r == back.with(&held);
            return println!(rt; "back={}", if same { "equal" } else { "different" });
        }
    }
    Ok(())
}

// The records of a kind with all optional groups, with none, and with each alone.
fn run_kind(rt: &impl Print, values: Values, kind: u8, direction: u8) -> io::Result<()> {
    let all = Form {
        kind,
        groups: listed(kind),
        direction,
    };
    run_record(rt, all.sample(values), 20)?;
    let none = Form { groups: 0, ..all };
    run_record(rt, none.sample(values), 20)?;
    for bit in 1..BITS {
        if has(all.groups, bit) {
            let groups = 1 << bit;
            run_record(rt, Form { groups, ..all }.sample(values), 20)?;
        }
    }
    Ok(())
}

fn run_kinds(rt: &impl Print, values: Values) -> io::Result<()> {
    for (kind, direction) in KINDS {
        run_kind(rt, values, kind, direction)?;
    }
    Ok(())
}

// All groups, each field with a number of its own.
fn run_table(rt: &impl Print) -> io::Result<()> {
    for (kind, direction, payload) in TABLE {
        let all = Form {
            kind,
            groups: listed(kind),
            direction,
        };
        run_record(rt, all.sample(Values::Own), payload)?;
    }
    Ok(())
}

pub(crate) fn run_all(rt: &impl Print) -> io::Result<()> {
    println!(rt; "values=least")?;
    run_kinds(rt, Values::Least)?;
    println!(rt; "values=greatest")?;
    run_kinds(rt, Values::Greatest)?;
    println!(rt; "values=own")?;
    run_table(rt)
}
