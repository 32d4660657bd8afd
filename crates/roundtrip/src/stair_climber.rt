// A stair climber whose record fills the payload to the last octet: one part.
use crate::round::BLANK;
use record::layout;
use record::record::{Climb, Energy, Gain, Record, StepRates};

// The groups of this record, by their bits.
const STEP_RATE: u32 = 1 << 1;

const AVERAGE_STEP_RATE: u32 = 1 << 2;

const POSITIVE_GAIN: u32 = 1 << 3;

const ENERGY: u32 = 1 << 5;

const HEART_RATE: u32 = 1 << 6;

const ELAPSED: u32 = 1 << 8;

const REMAINING: u32 = 1 << 9;

pub(crate) const STAIR_CLIMBER: Record = Record {
    kind: layout::STAIR_CLIMBER,
    groups: STEP_RATE
        | AVERAGE_STEP_RATE
        | POSITIVE_GAIN
        | ENERGY
        | HEART_RATE
        | ELAPSED
        | REMAINING,
    climb: Climb {
        floors: 31,
        steps: 0,
    },
    step_rates: StepRates {
        rate: 74,
        average: 70,
    },
    gain: Gain {
        positive: 112,
        negative: 0,
    },
    energy: Energy {
        total: 164,
        per_hour: 720,
        per_minute: 12,
    },
    heart_rate: 145,
    elapsed: 1260,
    remaining: 540,
    ..BLANK
};
