// The typed splitter: a record by its named fields, and the line of the output for a part: the answer, then every lent octet.
use crate::lines::u32_at;
use crate::printing::Refused;
use output::Octets;
use record::octets::{s16_at, u8_at, u16_at};
use record::record::{
    Climb, Energy, Force, Gain, Inclination, RampAngle, Record, Slope, StepRates, Stroke,
};
use record::refusal::Refusal;
use record::split::{Extent, split};
use std::{fmt, io};

// What a lent octet holds until it is written, and the most octets that are lent.
const UNTOUCHED: u8 = 0xAA;

const MOST_LENT: usize = 512;

// The fields of a line, in the order of the table: each has four octets.
#[derive(Clone, Copy)]
struct Fields<'a>(&'a [u8]);

impl Fields<'_> {
    // A field of one octet, of two, and of two with a sign: a call for each type, as the library has one.
    fn octet(self, field: u8) -> u8 {
        u8_at(self.0, 4 * usize::from(field))
    }

    fn word(self, field: u8) -> u16 {
        u16_at(self.0, 4 * usize::from(field))
    }

    fn signed(self, field: u8) -> i16 {
        s16_at(self.0, 4 * usize::from(field))
    }

    fn slope(self) -> Slope {
        Slope {
            inclination: Inclination(self.signed(7)),
            ramp_angle: RampAngle(self.signed(8)),
        }
    }

    fn energy(self) -> Energy {
        Energy {
            total: self.word(13),
            per_hour: self.word(14),
            per_minute: self.octet(15),
        }
    }

    fn climb(self) -> Climb {
        Climb {
            floors: self.word(1),
            steps: self.word(2),
        }
    }

    fn stroke(self) -> Stroke {
        Stroke {
            rate: self.octet(3),
            count: self.word(4),
        }
    }

    fn gain(self) -> Gain {
        Gain {
            positive: self.word(9),
            negative: self.word(10),
        }
    }

    fn force(self) -> Force {
        Force {
            belt: self.signed(20),
            power_output: self.signed(21),
        }
    }

    fn step_rates(self) -> StepRates {
        StepRates {
            rate: self.word(22),
            average: self.word(23),
        }
    }
}

// The record of a line: kind, groups and direction, and after the sixteen octets of the numbers its fields.
fn record_in(s: &[u8]) -> Record {
    let fields = Fields(s.get(16..).unwrap_or(&[]));
    Record {
        kind: u8_at(s, 0),
        groups: u32_at(s, 1),
        direction: u8_at(s, 5),
        speed: fields.word(0),
        climb: fields.climb(),
        stroke: fields.stroke(),
        average_speed: fields.word(5),
        distance: u32_at(s, 40),
        slope: fields.slope(),
        gain: fields.gain(),
        pace: fields.word(11),
        average_pace: fields.word(12),
        energy: fields.energy(),
        heart_rate: fields.octet(16),
        metabolic_equivalent: fields.octet(17),
        elapsed: fields.word(18),
        remaining: fields.word(19),
        force: fields.force(),
        step_rates: fields.step_rates(),
        stride_count: fields.word(24),
        resistance: fields.signed(25),
        power: fields.signed(26),
        average_power: fields.signed(27),
        average_stroke_rate: fields.octet(28),
        cadence: fields.word(29),
        average_cadence: fields.word(30),
    }
}

#[derive(Clone, Copy)]
struct Answer(Result<Extent, Refusal>);

impl fmt::Display for Answer {
    fn fmt<W: fmt::Write>(&self, f: &mut fmt::Formatter<W>) -> fmt::Result {
        match self.0 {
            Ok(extent) => { write!(f, "length={} parts={}", extent.length, extent.parts) }
            Err(refusal) => write!(f, "{}", Refused(refusal)),
        }
    }
}

// Splits the record of a line, at the line's payload and part, into as many lent octets as the line gives, and prints every octet that was lent.
pub(crate) fn run_split(rt: &impl Print, s: &[u8]) -> io::Result<()> {
    let payload = u32_at(s, 6) as usize;
    let part = u32_at(s, 10) as usize;
    let mut buffer = [UNTOUCHED; MOST_LENT];
    let room = usize::from(u16_at(s, 14)).min(MOST_LENT);
    let lent = &mut buffer[..room];
    let answer = split(record_in(s), payload, part, lent);
    println!(rt; "{} lent:{}", Answer(answer), Octets(lent))
}
