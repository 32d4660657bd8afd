// A record, with a named and typed field for each value.

// In tenths of a percent.
#[derive(Clone, Copy, PartialEq, Eq, Debug)]
pub struct Inclination(pub i16);

// In tenths of a degree. "These two are never taken for each other."
#[derive(Clone, Copy, PartialEq, Eq, Debug)]
pub struct RampAngle(pub i16);

// "Slope is inclination s16, .. then ramp angle s16, .."
#[derive(Clone, Copy, PartialEq, Eq, Debug)]
pub struct Slope {
    pub inclination: Inclination,
    pub ramp_angle: RampAngle,
}

// "Gain is positive u16, then negative u16."
#[derive(Clone, Copy, PartialEq, Eq, Debug)]
pub struct Gain {
    pub positive: u16,
    pub negative: u16,
}

// "E is energy: total u16, per hour u16, per minute u8."
#[derive(Clone, Copy, PartialEq, Eq, Debug)]
pub struct Energy {
    pub total: u16,
    pub per_hour: u16,
    pub per_minute: u8,
}

// The treadmill's belt force and power output.
#[derive(Clone, Copy, PartialEq, Eq, Debug)]
pub struct Force {
    pub belt: i16,
    pub power_output: i16,
}

// The main group of the step climber; the stair climber has the floors alone.
#[derive(Clone, Copy, PartialEq, Eq, Debug)]
pub struct Climb {
    pub floors: u16,
    pub steps: u16,
}

// The rower's main group.
#[derive(Clone, Copy, PartialEq, Eq, Debug)]
pub struct Stroke {
    pub rate: u8,
    pub count: u16,
}

// One group of the cross trainer, two groups of the climbers.
#[derive(Clone, Copy, PartialEq, Eq, Debug)]
pub struct StepRates {
    pub rate: u16,
    pub average: u16,
}

// "A record is a kind, a set of optional groups as the bits above, a direction and the field values." Kind and direction are numbers
// and not enums: a record with any other number is one that is not well formed, which the calls refuse.
#[derive(Clone, Copy, PartialEq, Eq, Debug)]
pub struct Record {
    pub kind: u8,
    pub groups: u32,
    pub direction: u8,
    pub speed: u16,
    pub climb: Climb,
    pub stroke: Stroke,
    pub average_speed: u16,
    pub distance: u32,
    pub slope: Slope,
    pub gain: Gain,
    pub pace: u16,
    pub average_pace: u16,
    pub energy: Energy,
    pub heart_rate: u8,
    pub metabolic_equivalent: u8,
    pub elapsed: u16,
    pub remaining: u16,
    pub force: Force,
    pub step_rates: StepRates,
    pub stride_count: u16,
    pub resistance: i16,
    pub power: i16,
    pub average_power: i16,
    pub average_stroke_rate: u8,
    pub cadence: u16,
    pub average_cadence: u16,
}
