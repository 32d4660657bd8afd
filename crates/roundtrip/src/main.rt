// A record of each kind is made, split, collected and printed: the code on each kind's page of the
// reference. Then come records of which some parts are lost.
// The output is compared with the file `stdout`, which tools/roundtrip.py writes from document 01
// alone.
#![tactic(auto)]

mod cross_trainer;
mod indoor_bike;
mod lost;
mod round;
mod rower;
mod stair_climber;
mod step_climber;
mod treadmill;

use output::GoesOn;
use record::record::Record;
use std::io;

// The record of each kind, by the kind's name.
const RECORDS: [(&str, Record); 6] = [
    ("treadmill", treadmill::TREADMILL),
    ("cross trainer", cross_trainer::CROSS_TRAINER),
    ("step climber", step_climber::STEP_CLIMBER),
    ("stair climber", stair_climber::STAIR_CLIMBER),
    ("rower", rower::ROWER),
    ("indoor bike", indoor_bike::INDOOR_BIKE),
];

fn main(rt: HostRuntime) -> io::Result<()> {
    let rt = GoesOn(rt);
    for (name, record) in RECORDS {
        println!(rt; "== {name}")?;
        round::split_and_collect(&rt, record)?;
    }
    lost::run(&rt)
}
