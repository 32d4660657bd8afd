// Section 4.6: the notifications of the machine data. A case runs a record as its machine notifies it; connecting, disabling notifications and the
// time between two records are outside.
use crate::bench::{Id, PASS, conclude, supports};
use crate::records::notify_record;
use record::feature::Feature;
use record::groups::listed;
use record::layout::{CROSS_TRAINER, INDOOR_BIKE, ROWER, STAIR_CLIMBER, STEP_CLIMBER, TREADMILL};
use std::io;

const GROUP: &str = "CN/BV-";

// Source document 000 gives energy per minute 16 bits, document 01 a u8.
const ENERGY_DEPARTS: &str = "departs (energy per minute is one octet)";

// The cases of a kind: the number of the complete record's, the group of energy, and the verdict on a record with it; then a case's number, a
// feature and its groups for each feature, and the last step of the case of the elapsed time.
#[derive(Clone, Copy)]
struct Cases {
    kind: u8,
    complete: u8,
    energy: u32,
    verdict: &'static str,
    features: &'static [(u8, u8, u32)],
    last: u8,
}

const KINDS: [Cases; 6] = [
    Cases {
        kind: TREADMILL,
        complete: 1,
        energy: 0x0080,
        verdict: ENERGY_DEPARTS,
        features: &[
            (2, Feature::AVERAGE_SPEED, 0x0002),
            (3, Feature::DISTANCE, 0x0004),
            (4, Feature::INCLINATION, 0x0008),
            (5, Feature::ELEVATION_GAIN, 0x0010),
            (6, Feature::PACE, 0x0060),
            (7, Feature::ENERGY, 0x0080),
            (8, Feature::HEART_RATE, 0x0100),
            (9, Feature::METABOLIC_EQUIVALENT, 0x0200),
            (10, Feature::REMAINING, 0x0800),
            (11, Feature::BELT_FORCE_AND_POWER_OUTPUT, 0x1000),
            (12, Feature::ELAPSED, 0x0400),
        ],
        last: 12,
    },
    Cases {
        kind: CROSS_TRAINER,
        complete: 13,
        energy: 0x0400,
        verdict: ENERGY_DEPARTS,
        features: &[
            (14, Feature::AVERAGE_SPEED, 0x0002),
            (15, Feature::DISTANCE, 0x0004),
            (16, Feature::STEP_COUNT, 0x0008),
            (17, Feature::STRIDE_COUNT, 0x0010),
            (18, Feature::ELEVATION_GAIN, 0x0020),
            (19, Feature::INCLINATION, 0x0040),
            (20, Feature::RESISTANCE, 0x0080),
            (21, Feature::POWER, 0x0300),
            (22, Feature::ENERGY, 0x0400),
            (23, Feature::HEART_RATE, 0x0800),
            (24, Feature::METABOLIC_EQUIVALENT, 0x1000),
            (26, Feature::REMAINING, 0x4000),
            (25, Feature::ELAPSED, 0x2000),
        ],
        last: 12,
    },
    Cases {
        kind: STEP_CLIMBER,
        complete: 27,
        energy: 0x0010,
        verdict: "departs (energy per minute is one octet; the step rate is not in the last notification)",
        features: &[
            (28, Feature::STEP_COUNT, 0x0006),
            (29, Feature::ELEVATION_GAIN, 0x0008),
            (30, Feature::ENERGY, 0x0010),
            (31, Feature::HEART_RATE, 0x0020),
            (32, Feature::METABOLIC_EQUIVALENT, 0x0040),
            (34, Feature::REMAINING, 0x0100),
            (33, Feature::ELAPSED, 0x0080),
        ],
        last: 12,
    },
    Cases {
        kind: STAIR_CLIMBER,
        complete: 35,
        energy: 0x0020,
        verdict: ENERGY_DEPARTS,
        features: &[
            (36, Feature::STEP_COUNT, 0x0006),
            (37, Feature::ELEVATION_GAIN, 0x0008),
            (38, Feature::STRIDE_COUNT, 0x0010),
            (39, Feature::ENERGY, 0x0020),
            (40, Feature::HEART_RATE, 0x0040),
            (41, Feature::METABOLIC_EQUIVALENT, 0x0080),
            (43, Feature::REMAINING, 0x0200),
            (42, Feature::ELAPSED, 0x0100),
        ],
        last: 12,
    },
    Cases {
        kind: ROWER,
        complete: 44,
        energy: 0x0100,
        verdict: ENERGY_DEPARTS,
        features: &[
            (45, Feature::CADENCE, 0x0002),
            (46, Feature::DISTANCE, 0x0004),
            (47, Feature::PACE, 0x0018),
            (48, Feature::POWER, 0x0060),
            (49, Feature::RESISTANCE, 0x0080),
            (50, Feature::ENERGY, 0x0100),
            (51, Feature::HEART_RATE, 0x0200),
            (52, Feature::METABOLIC_EQUIVALENT, 0x0400),
            (53, Feature::REMAINING, 0x1000),
            (54, Feature::ELAPSED, 0x0800),
        ],
        last: 12,
    },
    Cases {
        kind: INDOOR_BIKE,
        complete: 55,
        energy: 0x0100,
        verdict: ENERGY_DEPARTS,
        features: &[
            (56, Feature::AVERAGE_SPEED, 0x0002),
            (57, Feature::CADENCE, 0x000C),
            (58, Feature::DISTANCE, 0x0010),
            (59, Feature::RESISTANCE, 0x0020),
            (60, Feature::POWER, 0x00C0),
            (61, Feature::ENERGY, 0x0100),
            (62, Feature::HEART_RATE, 0x0200),
            (63, Feature::METABOLIC_EQUIVALENT, 0x0400),
            (64, Feature::REMAINING, 0x1000),
            (65, Feature::ELAPSED, 0x0800),
        ],
        last: 13,
    },
];

// A complete record, without energy and with it: the main group comes with More Data 0.
fn run_complete(rt: &impl Print, cases: &Cases) -> io::Result<()> {
    let id = Id(GROUP, cases.complete);
    let kind = cases.kind;
    let all = listed(kind);
    print!(rt; "{id} steps 1 to 5 without energy kind {kind}")?;
    conclude(rt, notify_record(rt, kind, all ^ cases.energy)?, PASS)?;
    print!(rt; "{id} steps 1 to 5 with energy kind {kind}")?;
    conclude(rt, notify_record(rt, kind, all)?, cases.verdict)?;
    println!(rt; "{id} steps 6 to 8: outside (radio: notifications are disabled)")
}

// A record with the groups of a feature, which the machine's Feature value must have.
fn run_feature(rt: &impl Print, id: Id, kind: u8, feature: u8, groups: u32) -> io::Result<()> {
    let (words, verdict) = match feature {
        Feature::ENERGY => ("", ENERGY_DEPARTS),
        Feature::ELAPSED => (" steps 1 to 6", PASS),
        _ => ("", PASS),
    };
    print!(rt; "{id}{words} kind {kind} feature {feature}")?;
    let right = notify_record(rt, kind, groups)?;
    conclude(rt, right && supports(feature), verdict)
}

// The features of a kind; a second record with the elapsed time, after a link loss and 9 seconds later, is outside.
fn run_features(rt: &impl Print, cases: &Cases) -> io::Result<()> {
    for &(number, feature, groups) in cases.features {
        let id = Id(GROUP, number);
        run_feature(rt, id, cases.kind, feature, groups)?;
        if feature == Feature::ELAPSED {
            print!(rt; "{id} steps 7 to {}", cases.last)?;
            println!(rt; ": outside (radio: link loss; timers: elapsed time)")?;
        }
    }
    Ok(())
}

pub(crate) fn run_all(rt: &impl Print) -> io::Result<()> {
    for cases in KINDS {
        run_complete(rt, &cases)?;
        run_features(rt, &cases)?;
    }
    Ok(())
}
