// What is printed of a collection: the answer to an opening and to a notification, and the whole state.
use crate::printing::Refused;
use record::record::Record;
use record::refusal::Refusal;
use service::collector::{Collected, Collection, Told};
use std::fmt;

// A collection: its kind, what it was told, the held groups, and the numbers of their fields.
#[derive(Clone, Copy)]
pub(crate) struct State<'a>(pub(crate) &'a Collection);

impl fmt::Display for State<'_> {
    fn fmt<W: fmt::Write>(&self, f: &mut fmt::Formatter<W>) -> fmt::Result {
        let collection = self.0;
        write!(f, " kind={}", collection.kind)?;
        match collection.told {
            Told::Open => write!(f, " open")?,
            Told::Fixed(set) => write!(f, " told={set}")?,
        }
        write!(f, " held={}", collection.held)?;
        for number in &collection.numbers {
            write!(f, " {number}")?;
        }
        Ok(())
    }
}

// An answer to a notification; "Each answer says whether held groups were dropped unused".
#[derive(Clone, Copy)]
pub(crate) struct Answer(pub(crate) Collected);

impl fmt::Display for Answer {
    fn fmt<W: fmt::Write>(&self, f: &mut fmt::Formatter<W>) -> fmt::Result {
        match self.0 {
            Collected::Waiting { .. } => write!(f, "waiting")?,
            Collected::Record { record, .. } => write!(f, "{}", Fields(&record))?,
            Collected::Refused { refusal, .. } => write!(f, "{}", Refused(refusal))?,
        }
        let (Collected::Waiting { dropped }
        | Collected::Record { dropped, .. }
        | Collected::Refused { dropped, .. }) = self.0;
        write!(f, " dropped={}", u8::from(dropped))
    }
}

// A record, with its fields by their names.
#[derive(Clone, Copy)]
struct Fields<'a>(&'a Record);

impl fmt::Display for Fields<'_> {
    fn fmt<W: fmt::Write>(&self, f: &mut fmt::Formatter<W>) -> fmt::Result {
        let r = self.0;
        write!(f, "record kind={} groups={}", r.kind, r.groups)?;
        write!(f, " direction={} fields:", r.direction)?;
        for (name, number) in fields_of(r) {
            write!(f, " {name}={number}")?;
        }
        Ok(())
    }
}

// The names of the fields and their numbers, in the order of the table.
fn fields_of(r: &Record) -> [(&'static str, i64); 31] {
    [
        ("speed", i64::from(r.speed)),
        ("floors", i64::from(r.climb.floors)),
        ("steps", i64::from(r.climb.steps)),
        ("stroke_rate", i64::from(r.stroke.rate)),
        ("stroke_count", i64::from(r.stroke.count)),
        ("average_speed", i64::from(r.average_speed)),
        ("distance", i64::from(r.distance)),
        ("inclination", i64::from(r.slope.inclination.0)),
        ("ramp_angle", i64::from(r.slope.ramp_angle.0)),
        ("positive_gain", i64::from(r.gain.positive)),
        ("negative_gain", i64::from(r.gain.negative)),
        ("pace", i64::from(r.pace)),
        ("average_pace", i64::from(r.average_pace)),
        ("total_energy", i64::from(r.energy.total)),
        ("energy_per_hour", i64::from(r.energy.per_hour)),
        ("energy_per_minute", i64::from(r.energy.per_minute)),
        ("heart_rate", i64::from(r.heart_rate)),
        ("metabolic_equivalent", i64::from(r.metabolic_equivalent)),
        ("elapsed", i64::from(r.elapsed)),
        ("remaining", i64::from(r.remaining)),
        ("belt_force", i64::from(r.force.belt)),
        ("power_output", i64::from(r.force.power_output)),
        ("step_rate", i64::from(r.step_rates.rate)),
        ("average_step_rate", i64::from(r.step_rates.average)),
        ("stride_count", i64::from(r.stride_count)),
        ("resistance", i64::from(r.resistance)),
        ("power", i64::from(r.power)),
        ("average_power", i64::from(r.average_power)),
        ("average_stroke_rate", i64::from(r.average_stroke_rate)),
        ("cadence", i64::from(r.cadence)),
        ("average_cadence", i64::from(r.average_cadence)),
    ]
}
