// A step climber whose record is one octet longer than the payload: all optional groups go
// first, and the main group follows alone.
use crate::round::BLANK;
use record::layout;
use record::record::{Climb, Energy, Gain, Record, StepRates};

// The groups of this record, by their bits.
const STEP_RATE: u32 = 1 << 1;

const POSITIVE_GAIN: u32 = 1 << 3;

const ENERGY: u32 = 1 << 4;

const HEART_RATE: u32 = 1 << 5;

const METABOLIC_EQUIVALENT: u32 = 1 << 6;

const ELAPSED: u32 = 1 << 7;

const REMAINING: u32 = 1 << 8;

pub(crate) const STEP_CLIMBER: Record = Record {
    kind: layout::STEP_CLIMBER,
    groups: STEP_RATE
        | POSITIVE_GAIN
        | ENERGY
        | HEART_RATE
        | METABOLIC_EQUIVALENT
        | ELAPSED
        | REMAINING,
    climb: Climb {
        floors: 24,
        steps: 412,
    },
    step_rates: StepRates {
        rate: 62,
        average: 0,
    },
    gain: Gain {
        positive: 85,
        negative: 0,
    },
    energy: Energy {
        total: 130,
        per_hour: 540,
        per_minute: 9,
    },
    heart_rate: 138,
    metabolic_equivalent: 82,
    elapsed: 900,
    remaining: 300,
    ..BLANK
};
