// All kinds side by side: their sizes and their fields.
use crate::parts::Splitting;
use crate::written::Written;
use record::groups::flags_length;
use record::layout::{INDOOR_BIKE, Row, TREADMILL, rows};
use record::split::{GREATEST_PAYLOAD, LEAST_PAYLOAD};
use std::io;

// One more than the last field.
const FIELDS: u8 = 31;

// The octets of a record of the kind with all its groups, as one notification.
pub(crate) fn whole_length(kind: u8) -> usize {
    let whole = Splitting::whole(kind, GREATEST_PAYLOAD).part(0);
    whole.map_or(0, |sent| sent.length)
}

// The number of its parts at the least payload.
pub(crate) fn least_parts(kind: u8) -> usize {
    let cut = Splitting::whole(kind, LEAST_PAYLOAD).part(0);
    cut.map_or(0, |sent| sent.parts)
}

// The line of each kind: its number, its name, the octets of its flags and of all groups, and its
// parts at the least payload.
pub(crate) fn print_kinds(rt: &impl Print) -> io::Result<()> {
    print!(rt;
        "\n# All kinds\n\n## Kinds\n\n| kind | name | octets of flags | octets with all groups | parts at payload 20 |\n|---|---|---|---|---|\n"
    )?;
    for kind in TREADMILL..=INDOOR_BIKE {
        println!(rt;
            "| {kind} | {} | {} | {} | {} |",
            Written::Kind(kind),
            flags_length(kind),
            whole_length(kind),
            least_parts(kind),
        )?;
    }
    Ok(())
}

// The cell of a field and a kind: its bit, or `main`, and its width; empty if the kind has no such
// field.
fn print_cell(rt: &impl Print, kind: u8, field: u8) -> io::Result<()> {
    for Row(bit, of, width) in rows(kind).iter().copied() {
        let width = Written::Width(width);
        if of == field {
            match bit {
                0 => print!(rt; " main {width}")?,
                _ => print!(rt; " {bit} {width}")?,
            }
        }
    }
    print!(rt; " |")
}

// The line of a field: a cell for each kind.
fn print_field(rt: &impl Print, field: u8) -> io::Result<()> {
    print!(rt; "| {} |", Written::Field(field))?;
    for kind in TREADMILL..=INDOOR_BIKE {
        print_cell(rt, kind, field)?;
    }
    println!(rt)
}

// Every field with its bit and width in each kind.
pub(crate) fn print_fields(rt: &impl Print) -> io::Result<()> {
    print!(rt;
        "\n## Fields\n\n| field | treadmill | cross trainer | step climber | stair climber | rower | indoor bike |\n|---|---|---|---|---|---|---|\n"
    )?;
    for field in 0..FIELDS {
        print_field(rt, field)?;
    }
    Ok(())
}
