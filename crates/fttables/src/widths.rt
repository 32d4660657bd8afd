// The widths of fields, with the least and greatest number of each, read from octets.
use output::Octets;
use record::octets::{s16_at, u8_at, u16_at, u24_at};
use std::{fmt, io};

const ZEROS: [u8; 3] = [0, 0, 0];

const ONES: [u8; 3] = [0xFF, 0xFF, 0xFF];

// The ends of an s16.
const LEAST: [u8; 2] = [0x00, 0x80];

const GREATEST: [u8; 2] = [0xFF, 0x7F];

// The cell of a number, with the octets that it was read from.
fn print_end(rt: &impl Print, number: impl fmt::Display + Drop, octets: &[u8]) -> io::Result<()> {
    print!(rt; " {number}:{} |", Octets(octets))
}

pub(crate) fn print_widths(rt: &impl Print) -> io::Result<()> {
    print!(rt;
        "\n# Widths\n\n## Widths\n\n| width | octets | least | greatest |\n|---|---|---|---|\n| u8 | 1 |"
    )?;
    print_end(rt, u8_at(&ZEROS, 0), &ZEROS[..1])?;
    print_end(rt, u8_at(&ONES, 0), &ONES[..1])?;
    print!(rt; "\n| u16 | 2 |")?;
    print_end(rt, u16_at(&ZEROS, 0), &ZEROS[..2])?;
    print_end(rt, u16_at(&ONES, 0), &ONES[..2])?;
    print!(rt; "\n| u24 | 3 |")?;
    print_end(rt, u24_at(&ZEROS, 0), &ZEROS)?;
    print_end(rt, u24_at(&ONES, 0), &ONES)?;
    print!(rt; "\n| s16 | 2 |")?;
    print_end(rt, s16_at(&LEAST, 0), &LEAST)?;
    print_end(rt, s16_at(&GREATEST, 0), &GREATEST)?;
    println!(rt)
}
