// The features, with the groups of each kind that belong to each.
use crate::feature::FEATURES;
use record::feature::Feature;
use record::layout;
use record::layout::{INDOOR_BIKE, Row, TREADMILL, rows};
use std::io;

// The feature that a group belongs to, by the group's first field: source document 000, tables 4.5
// to 4.10.
fn feature_of(field: u8) -> Option<u8> {
    match field {
        layout::AVERAGE_SPEED => Some(Feature::AVERAGE_SPEED),
        layout::AVERAGE_STROKE_RATE | layout::CADENCE | layout::AVERAGE_CADENCE => {
            Some(Feature::CADENCE)
        }
        layout::DISTANCE => Some(Feature::DISTANCE),
        layout::INCLINATION => Some(Feature::INCLINATION),
        layout::POSITIVE_GAIN => Some(Feature::ELEVATION_GAIN),
        layout::PACE | layout::AVERAGE_PACE => Some(Feature::PACE),
        layout::STEP_RATE | layout::AVERAGE_STEP_RATE => Some(Feature::STEP_COUNT),
        layout::RESISTANCE => Some(Feature::RESISTANCE),
        layout::STRIDE_COUNT => Some(Feature::STRIDE_COUNT),
        layout::TOTAL_ENERGY => Some(Feature::ENERGY),
        layout::HEART_RATE => Some(Feature::HEART_RATE),
        layout::METABOLIC_EQUIVALENT => Some(Feature::METABOLIC_EQUIVALENT),
        layout::ELAPSED => Some(Feature::ELAPSED),
        layout::REMAINING => Some(Feature::REMAINING),
        layout::POWER | layout::AVERAGE_POWER => Some(Feature::POWER),
        layout::BELT_FORCE => Some(Feature::BELT_FORCE_AND_POWER_OUTPUT),
        _ => None,
    }
}

// The cell of a feature and a kind: the bits of the kind's groups that belong to it, each once.
fn print_cell(rt: &impl Print, kind: u8, feature: u8) -> io::Result<()> {
    let mut before = 0;
    for Row(bit, field, _) in rows(kind).iter().copied() {
        if bit != before && feature_of(field) == Some(feature) {
            print!(rt; " {bit}")?;
        }
        before = bit;
    }
    print!(rt; " |")
}

// The line of a feature: its bit, its name, and a cell for each kind.
fn print_row(rt: &impl Print, feature: u8, name: &str) -> io::Result<()> {
    print!(rt; "| {feature} | {name} |")?;
    for kind in TREADMILL..=INDOOR_BIKE {
        print_cell(rt, kind, feature)?;
    }
    println!(rt)
}

// The table of the features; the last, user data retention, has no group.
pub(crate) fn print_answers(rt: &impl Print) -> io::Result<()> {
    print!(rt;
        "\n## Features and groups\n\n| feature | name | treadmill | cross trainer | step climber | stair climber | rower | indoor bike |\n|---|---|---|---|---|---|---|---|\n"
    )?;
    for (feature, name) in (0..Feature::USER_DATA_RETENTION).zip(FEATURES) {
        print_row(rt, feature, name)?;
    }
    Ok(())
}
