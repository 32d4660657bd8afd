// The parts of a record with all groups of its kind, as the splitter cuts them.
use output::{Octets, first};
use record::groups::{BITS, flags_length, has, listed};
use record::layout::CROSS_TRAINER;
use record::notification::{Part, part_of};
use record::numbers::Wire;
use record::split::{GREATEST_PAYLOAD, MOST_PARTS, split_numbers};
use std::{fmt, io};

// A record with every value 0, and the payload at which it is split.
#[derive(Clone, Copy)]
pub(crate) struct Splitting {
    kind: u8,
    groups: u32,
    // 0 forward, 1 backward
    direction: u8,
    payload: usize,
}

// A part: its octets in a buffer of its own with their length, since there is no heap; what they say;
// and the number of all parts.
#[derive(Clone, Copy)]
pub(crate) struct Sent {
    space: [u8; GREATEST_PAYLOAD],
    pub(crate) length: usize,
    part: Part,
    pub(crate) parts: usize,
}

impl Splitting {
    // All groups of a kind, forward.
    pub(crate) fn whole(kind: u8, payload: usize) -> Splitting {
        Splitting {
            kind,
            groups: listed(kind),
            direction: 0,
            payload,
        }
    }

    // The part of a number, if there is one.
    pub(crate) fn part(self, number: usize) -> Option<Sent> {
        let Splitting {
            kind,
            groups,
            direction,
            payload,
        } = self;
        let mut space = [0u8; GREATEST_PAYLOAD];
        let wire = Wire {
            kind,
            groups,
            direction,
            numbers: [0; 31],
        };
        let extent = split_numbers(&wire, payload, number, &mut space).ok()?;
        let part = part_of(kind, first(&space, extent.length)).ok()?;
        Some(Sent {
            space,
            length: extent.length,
            part,
            parts: extent.parts,
        })
    }
}

impl Sent {
    // The octets of its flags.
    fn flags(&self, kind: u8) -> &[u8] {
        first(&self.space, flags_length(kind))
    }
}

// The bits of a set of groups.
#[derive(Clone, Copy)]
struct Groups(u32);

impl fmt::Display for Groups {
    fn fmt<W: fmt::Write>(&self, f: &mut fmt::Formatter<W>) -> fmt::Result {
        let set = self.0;
        for bit in (1..BITS).filter(|bit| has(set, *bit)) {
            write!(f, " {bit}")?;
        }
        Ok(())
    }
}

// The groups of a part: `main` for the main group, and the others by their bits.
#[derive(Clone, Copy)]
struct Carried(Part);

impl fmt::Display for Carried {
    fn fmt<W: fmt::Write>(&self, f: &mut fmt::Formatter<W>) -> fmt::Result {
        if self.0.last {
            write!(f, " main")?;
        }
        write!(f, "{}", Groups(self.0.groups))
    }
}

// The line of a part: its number, flags, octets and groups; for a cross trainer's part, also its
// flags when the direction is backward.
fn print_part(rt: &impl Print, splitting: Splitting, number: usize) -> io::Result<()> {
    let Some(sent) = splitting.part(number) else {
        return Ok(());
    };
    let kind = splitting.kind;
    print!(rt; "| {number} |{} |", Octets(sent.flags(kind)))?;
    if kind == CROSS_TRAINER {
        let backward = Splitting {
            direction: 1,
            ..splitting
        };
        if let Some(sent) = backward.part(number) {
            print!(rt; "{} |", Octets(sent.flags(kind)))?;
        }
    }
    println!(rt; " {} |{} |", sent.length, Carried(sent.part))
}

// The table of a kind's parts at a payload; the cross trainer has a direction in its flags.
pub(crate) fn print_parts(rt: &impl Print, kind: u8, payload: usize) -> io::Result<()> {
    print!(rt; "\n## Parts at payload {payload}\n\n")?;
    if kind == CROSS_TRAINER {
        print!(rt;
            "| part | flags, forward | flags, backward | length | groups |\n|---|---|---|---|---|\n"
        )?;
    } else {
        print!(rt; "| part | flags | length | groups |\n|---|---|---|---|\n")?;
    }
    for number in 0..MOST_PARTS {
        print_part(rt, Splitting::whole(kind, payload), number)?;
    }
    Ok(())
}

// A step of splitting: what remains, how long it would be in one part, and whether that fits; and
// the part that is sent.
fn print_step(rt: &impl Print, left: Splitting, number: usize, sent: Sent) -> io::Result<()> {
    let one = Splitting {
        payload: GREATEST_PAYLOAD,
        ..left
    };
    let whole = one.part(0).map_or(0, |sent| sent.length);
    let fits = if whole <= left.payload { "yes" } else { "no" };
    println!(rt;
        "|{} | {whole} | {fits} | part {number} |{} | {} |",
        Groups(left.groups),
        Carried(sent.part),
        sent.length,
    )
}

// The steps by which a record with all groups of the kind is split at a payload.
pub(crate) fn print_cut(rt: &impl Print, kind: u8, payload: usize) -> io::Result<()> {
    print!(rt;
        "\n## The cut at payload {payload}\n\n| remaining groups | octets with flags and main | fits | sent | groups in it | its octets |\n|---|---|---|---|---|---|\n"
    )?;
    let all = Splitting::whole(kind, payload);
    let mut left = all;
    for number in 0..MOST_PARTS {
        if let Some(sent) = all.part(number) {
            print_step(rt, left, number, sent)?;
            left.groups ^= sent.part.groups;
        }
    }
    Ok(())
}
