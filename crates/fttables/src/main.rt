// Prints the tables of the reference in Markdown, from the tables that the proved code runs on and
// from what its calls answer.
#![tactic(auto)]

mod answers;
mod calls;
mod clients;
mod control;
mod feature;
mod header;
mod increments;
mod keys;
mod kinds;
mod machine;
mod parts;
mod records;
mod refusals;
mod spin_down;
mod steps;
mod widths;
mod written;

use crate::answers::print_answers;
use crate::control::print_control;
use crate::feature::print_feature;
use crate::header::print_header;
use crate::keys::print_keys;
use crate::kinds::{print_fields, print_kinds};
use crate::machine::print_machine;
use crate::parts::{print_cut, print_parts};
use crate::refusals::{print_orders, print_refusals};
use crate::spin_down::print_spin_down;
use crate::widths::print_widths;
use crate::written::Written;
use output::GoesOn;
use record::layout::{INDOOR_BIKE, TREADMILL};
use record::split::LEAST_PAYLOAD;
use std::io;

// The page of each kind: its flags and fields, and its parts at the least payload.
fn print_pages(rt: &impl Print) -> io::Result<()> {
    for kind in TREADMILL..=INDOOR_BIKE {
        print!(rt; "{}", Written::Page(kind))?;
        print_parts(rt, kind, LEAST_PAYLOAD)?;
        println!(rt)?;
    }
    Ok(())
}

// The calls of the service: what they take, what they refuse and what they do.
fn print_calls(rt: &impl Print) -> io::Result<()> {
    print_feature(rt)?;
    print_control(rt)?;
    print_refusals(rt)?;
    print_orders(rt)?;
    print_machine(rt)?;
    print_spin_down(rt)
}

// An indoor bike with all groups: 29 octets are one too few for one part.
fn print_splitting(rt: &impl Print) -> io::Result<()> {
    println!(rt; "\n# Splitting")?;
    print_parts(rt, INDOOR_BIKE, 29)?;
    print_parts(rt, INDOOR_BIKE, 30)?;
    print_cut(rt, INDOOR_BIKE, LEAST_PAYLOAD)
}

fn main(rt: HostRuntime) -> io::Result<()> {
    let rt = GoesOn(rt);
    print_pages(&rt)?;
    print_calls(&rt)?;
    print_kinds(&rt)?;
    print_fields(&rt)?;
    print_answers(&rt)?;
    print_widths(&rt)?;
    print_splitting(&rt)?;
    print_keys(&rt)?;
    print_header(&rt)
}
