// Records as wire numbers, one unsigned number for each field, and back.
ghost use Rattle.std.specs.Prelude.{◌≡◌, ◌%◌, ◌^◌, get_or, set};
ghost use Rattle.record.specs.Octets;
ghost use Rattle.record.specs.Record.{wire, wired, of_wire};

use crate::layout;
use crate::octets::{signed, unsigned};
use crate::record::{
    Climb, Energy, Force, Gain, Inclination, RampAngle, Record, Slope, StepRates, Stroke,
};

// A record as its kind, its optional groups, its direction and its wire numbers: one unsigned number for each field, in field
// order; an s16 is given as its sixteen bits.
#[derive(Clone, Copy, PartialEq, Eq, Debug)]
pub struct Wire {
    pub kind: u8,
    pub groups: u32,
    pub direction: u8,
    pub numbers: [u32; 31],
}

// A record's wire numbers.
pub fn numbers_of(r: Record) -> [u32; 31]
    ensures { result ≡ wire r }
{
    [
        r.speed as u32,
        r.climb.floors as u32,
        r.climb.steps as u32,
        r.stroke.rate as u32,
        r.stroke.count as u32,
        r.average_speed as u32,
        r.distance,
        unsigned(r.slope.inclination.0) as u32,
        unsigned(r.slope.ramp_angle.0) as u32,
        r.gain.positive as u32,
        r.gain.negative as u32,
        r.pace as u32,
        r.average_pace as u32,
        r.energy.total as u32,
        r.energy.per_hour as u32,
        r.energy.per_minute as u32,
        r.heart_rate as u32,
        r.metabolic_equivalent as u32,
        r.elapsed as u32,
        r.remaining as u32,
        unsigned(r.force.belt) as u32,
        unsigned(r.force.power_output) as u32,
        r.step_rates.rate as u32,
        r.step_rates.average as u32,
        r.stride_count as u32,
        unsigned(r.resistance) as u32,
        unsigned(r.power) as u32,
        unsigned(r.average_power) as u32,
        r.average_stroke_rate as u32,
        r.cadence as u32,
        r.average_cadence as u32,
    ]
}

// The number of a field; 0 if there is no such field.
pub(crate) fn number_at(numbers: &[u32; 31], field: u8) -> u32
    ensures { result ≡ get_or numbers.now field 0 }
{
    numbers.get(field as usize).copied().unwrap_or(0)
}

// Stores the number of a field, if there is such a field.
pub(crate) fn put_number(numbers: &mut [u32; 31], field: u8, x: u32)
    ensures { numbers.new ≡ set numbers.old field x }
{
    let i = field as usize;
    if i < numbers.len() {
        numbers[i] = x;
    }
}

// The number of a field, truncated to a u8, a u16 and an i16. Three functions and not one over the type: an `as` must lose nothing,
// so that u8 and u16 have a modulus each, and the i16 is the u16, signed.
fn octet_at(numbers: &[u32; 31], field: u8) -> u8
    ensures { result ≡ get_or numbers.now field 0 % 2 ^ 8 }
{
    (number_at(numbers, field) % 256) as u8
}

fn word_at(numbers: &[u32; 31], field: u8) -> u16
    ensures { result ≡ get_or numbers.now field 0 % 2 ^ 16 }
{
    (number_at(numbers, field) % 65536) as u16
}

fn signed_at(numbers: &[u32; 31], field: u8) -> i16
    ensures { result ≡ Octets.signed (get_or numbers.now field 0 % 2 ^ 16) }
{
    signed(word_at(numbers, field))
}

// The fields of a record that are structs, from the record's wire numbers.
fn climb_of(numbers: &[u32; 31]) -> Climb
    ensures { result ≡ (of_wire 0 0 0 numbers.now).climb }
{
    Climb {
        floors: word_at(numbers, layout::FLOORS),
        steps: word_at(numbers, layout::STEPS),
    }
}

fn stroke_of(numbers: &[u32; 31]) -> Stroke
    ensures { result ≡ (of_wire 0 0 0 numbers.now).stroke }
{
    Stroke {
        rate: octet_at(numbers, layout::STROKE_RATE),
        count: word_at(numbers, layout::STROKE_COUNT),
    }
}

fn slope_of(numbers: &[u32; 31]) -> Slope
    ensures { result ≡ (of_wire 0 0 0 numbers.now).slope }
{
    Slope {
        inclination: Inclination(signed_at(numbers, layout::INCLINATION)),
        ramp_angle: RampAngle(signed_at(numbers, layout::RAMP_ANGLE)),
    }
}

fn gain_of(numbers: &[u32; 31]) -> Gain
    ensures { result ≡ (of_wire 0 0 0 numbers.now).gain }
{
    Gain {
        positive: word_at(numbers, layout::POSITIVE_GAIN),
        negative: word_at(numbers, layout::NEGATIVE_GAIN),
    }
}

fn energy_of(numbers: &[u32; 31]) -> Energy
    ensures { result ≡ (of_wire 0 0 0 numbers.now).energy }
{
    Energy {
        total: word_at(numbers, layout::TOTAL_ENERGY),
        per_hour: word_at(numbers, layout::ENERGY_PER_HOUR),
        per_minute: octet_at(numbers, layout::ENERGY_PER_MINUTE),
    }
}

fn force_of(numbers: &[u32; 31]) -> Force
    ensures { result ≡ (of_wire 0 0 0 numbers.now).force }
{
    Force {
        belt: signed_at(numbers, layout::BELT_FORCE),
        power_output: signed_at(numbers, layout::POWER_OUTPUT),
    }
}

fn step_rates_of(numbers: &[u32; 31]) -> StepRates
    ensures { result ≡ (of_wire 0 0 0 numbers.now).step_rates }
{
    StepRates {
        rate: word_at(numbers, layout::STEP_RATE),
        average: word_at(numbers, layout::AVERAGE_STEP_RATE),
    }
}

impl From<Record> for Wire {
    ghost from_gives = { λ r w. w ≡ wired r };

    fn from(r: Record) -> Wire {
        Wire {
            kind: r.kind,
            groups: r.groups,
            direction: r.direction,
            numbers: numbers_of(r),
        }
    }
}

// The record with these wire numbers, each truncated to its field's type.
pub fn record_of(wire: &Wire) -> Record
    ensures { result ≡ of_wire wire.now.kind wire.now.groups wire.now.direction wire.now.numbers }
{
    let numbers = &wire.numbers;
    Record {
        kind: wire.kind,
        groups: wire.groups,
        direction: wire.direction,
        speed: word_at(numbers, layout::SPEED),
        climb: climb_of(numbers),
        stroke: stroke_of(numbers),
        average_speed: word_at(numbers, layout::AVERAGE_SPEED),
        distance: number_at(numbers, layout::DISTANCE),
        slope: slope_of(numbers),
        gain: gain_of(numbers),
        pace: word_at(numbers, layout::PACE),
        average_pace: word_at(numbers, layout::AVERAGE_PACE),
        energy: energy_of(numbers),
        heart_rate: octet_at(numbers, layout::HEART_RATE),
        metabolic_equivalent: octet_at(numbers, layout::METABOLIC_EQUIVALENT),
        elapsed: word_at(numbers, layout::ELAPSED),
        remaining: word_at(numbers, layout::REMAINING),
        force: force_of(numbers),
        step_rates: step_rates_of(numbers),
        stride_count: word_at(numbers, layout::STRIDE_COUNT),
        resistance: signed_at(numbers, layout::RESISTANCE),
        power: signed_at(numbers, layout::POWER),
        average_power: signed_at(numbers, layout::AVERAGE_POWER),
        average_stroke_rate: octet_at(numbers, layout::AVERAGE_STROKE_RATE),
        cadence: word_at(numbers, layout::CADENCE),
        average_cadence: word_at(numbers, layout::AVERAGE_CADENCE),
    }
}
