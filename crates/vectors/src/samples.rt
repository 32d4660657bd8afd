// The records that are run: which values their fields have.
use record::groups::has;
use record::layout::{Row, Width, rows};
use record::numbers::{Wire, numbers_of, record_of};
use record::record::{
    Climb, Energy, Force, Gain, Inclination, RampAngle, Record, Slope, StepRates, Stroke,
};
use std::fmt;
use std::fmt::Write;

// Each present field at its least, at its greatest, or at a number of its own.
#[derive(Clone, Copy)]
pub(crate) enum Values {
    Least,
    Greatest,
    Own,
}

// A record in which each name has a number of its own, so that no two fields can be taken for each other.
const OWN: Record = Record {
    kind: 0,
    groups: 0,
    direction: 0,
    speed: 1001,
    climb: Climb {
        floors: 1002,
        steps: 1003,
    },
    stroke: Stroke {
        rate: 4,
        count: 1005,
    },
    average_speed: 1006,
    distance: 1000007,
    slope: Slope {
        inclination: Inclination(-8),
        ramp_angle: RampAngle(-9),
    },
    gain: Gain {
        positive: 1010,
        negative: 1011,
    },
    pace: 12,
    average_pace: 13,
    energy: Energy {
        total: 1014,
        per_hour: 1015,
        per_minute: 16,
    },
    heart_rate: 17,
    metabolic_equivalent: 18,
    elapsed: 1019,
    remaining: 1020,
    force: Force {
        belt: -21,
        power_output: -22,
    },
    step_rates: StepRates {
        rate: 1023,
        average: 1024,
    },
    stride_count: 1025,
    resistance: -26,
    power: -27,
    average_power: -28,
    average_stroke_rate: 29,
    cadence: 1030,
    average_cadence: 1031,
};

// The number of a field, and another one in its place; the library has these two for itself alone.
pub(crate) fn number_at(numbers: &[u32; 31], field: u8) -> u32 {
    numbers.get(usize::from(field)).copied().unwrap_or(0)
}

pub(crate) fn put_number(numbers: &mut [u32; 31], field: u8, x: u32) {
    if let Some(number) = numbers.get_mut(usize::from(field)) {
        *number = x;
    }
}

impl Values {
    // The wire number of a row's field.
    fn number(self, row: Row) -> u32 {
        match (self, row.2) {
            (Values::Least, Width::S16) => 32768,
            (Values::Least, _) => 0,
            (Values::Greatest, Width::U8) => 255,
            (Values::Greatest, Width::U16) => 65535,
            (Values::Greatest, Width::U24) => 16777215,
            (Values::Greatest, Width::S16) => 32767,
            (Values::Own, _) => number_at(&numbers_of(OWN), row.1),
        }
    }
}

// A record's kind, groups and direction.
#[derive(Clone, Copy, PartialEq, Eq)]
pub(crate) struct Form {
    pub(crate) kind: u8,
    pub(crate) groups: u32,
    pub(crate) direction: u8,
}

impl From<Record> for Form {
    fn from(r: Record) -> Form {
        Form {
            kind: r.kind,
            groups: r.groups,
            direction: r.direction,
        }
    }
}

impl fmt::Display for Form {
    fn fmt<W: fmt::Write>(&self, f: &mut fmt::Formatter<W>) -> fmt::Result {
        let Form {
            kind,
            groups,
            direction,
        } = self;
        write!(f, "kind={kind} groups={groups} direction={direction}")
    }
}

impl Form {
    // Whether a row's group is present: bit 0, the main one, always is.
    pub(crate) fn has(self, row: Row) -> bool {
        row.0 == 0 || has(self.groups, row.0)
    }

    // The record of this form with these wire numbers.
    pub(crate) fn with(self, numbers: &[u32; 31]) -> Record {
        record_of(&Wire {
            kind: self.kind,
            groups: self.groups,
            direction: self.direction,
            numbers: *numbers,
        })
    }

    // The record of this form, each present field at its value.
    pub(crate) fn sample(self, values: Values) -> Record {
        let mut numbers = [0u32; 31];
        for row in rows(self.kind) {
            if self.has(*row) {
                put_number(&mut numbers, row.1, values.number(*row));
            }
        }
        self.with(&numbers)
    }
}
