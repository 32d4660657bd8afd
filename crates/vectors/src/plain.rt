// Numbers and the Feature value from octets and back.
use output::Octets;
use record::feature::Feature;
use record::octets::{s16_at, u24_at, unsigned};
use std::io;

// "Other bits are written 0 and ignored when read."
const FEATURES: [&[u8]; 5] = [
    b"\xFF\xFF\xFF\xFF\xFF\xFF\xFF\xFF",
    b"\x00\x00\x01\x00\x00\x00\x02\x00",
    b"\x86\x56\x00\x00\x0C\x20\x00\x00",
    b"\x00\x00\x00\x00\x00\x00\x00",
    b"\x00\x00\x00\x00\x00\x00\x00\x00\x00",
];

fn run_s16(rt: &impl Print) -> io::Result<()> {
    for octets in [[0xFF, 0xFF], [0x00, 0x80], [0xFF, 0x7F], [0x00, 0x00]] {
        let z = s16_at(&octets, 0);
        let back = unsigned(z).to_le_bytes();
        println!(rt; "s16{} is {z} and back{}", Octets(&octets), Octets(&back))?;
    }
    Ok(())
}

fn run_u24(rt: &impl Print) -> io::Result<()> {
    for octets in [[0xFF, 0xFF, 0xFF], [0x01, 0x02, 0x03]] {
        let x = u24_at(&octets, 0);
        let [low, middle, high, _] = x.to_le_bytes();
        let back = [low, middle, high];
        println!(rt; "u24{} is {x} and back{}", Octets(&octets), Octets(&back))?;
    }
    Ok(())
}

fn run_features(rt: &impl Print) -> io::Result<()> {
    for octets in FEATURES {
        print!(rt; "feature{}", Octets(octets))?;
        match Feature::from_octets(octets) {
            Ok(value) => {
                let Feature { features, targets } = value;
                let back = value.to_octets();
                print!(rt; " features={features} targets={targets}")?;
                println!(rt; " and back{}", Octets(&back))?;
            }
            Err(refusal) => println!(rt; " refused={}", refusal.number())?,
        }
    }
    Ok(())
}

pub(crate) fn run_all(rt: &impl Print) -> io::Result<()> {
    println!(rt; "numbers")?;
    run_s16(rt)?;
    run_u24(rt)?;
    println!(rt; "feature values")?;
    run_features(rt)
}
