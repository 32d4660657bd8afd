// The two words of the Feature value.
use record::feature::Feature;
use std::io;

// The names of the features, and of the target settings, in the order of their bits.
pub(crate) const FEATURES: [&str; 17] = [
    "average speed",
    "cadence",
    "distance",
    "inclination",
    "elevation gain",
    "pace",
    "step count",
    "resistance",
    "stride count",
    "energy",
    "heart rate",
    "metabolic equivalent",
    "elapsed",
    "remaining",
    "power",
    "belt force and power output",
    "user data retention",
];

const TARGETS: [&str; 17] = [
    "speed",
    "inclination",
    "resistance",
    "power",
    "heart rate",
    "energy",
    "steps",
    "strides",
    "distance",
    "training time",
    "time in two heart rate zones",
    "time in three heart rate zones",
    "time in five heart rate zones",
    "bike simulation",
    "wheel circumference",
    "spin down",
    "cadence",
];

// The lines of a word's bits.
fn print_bits(rt: &impl Print, bits: [u8; 17], names: [&str; 17]) -> io::Result<()> {
    for (bit, name) in bits.iter().zip(names) {
        println!(rt; "| {bit} | {name} |")?;
    }
    Ok(())
}

pub(crate) fn print_feature(rt: &impl Print) -> io::Result<()> {
    print!(rt; "# Feature value\n\n## Features\n\n| bit | name |\n|---|---|\n")?;
    print_bits(rt, Feature::feature_bits(), FEATURES)?;
    print!(rt; "\n## Target settings\n\n| bit | name |\n|---|---|\n")?;
    print_bits(rt, Feature::target_bits(), TARGETS)
}
