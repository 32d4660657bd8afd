// The server test cases of source document 003, in its order. Each line has a case's identifier, what was read, notified or sent, and the verdict:
// `pass` if the outcome is the one that the test suite expects, `departs` if document 01 has another or asks for one more step, `outside` if what
// is tested lies outside documents 01 and 02, the last two with the reason; `FAIL` if the outcome is not the expected one.
#![tactic(auto)]

mod bench;
mod errors;
mod notifications;
mod outside;
mod procedures;
mod records;
mod statuses;

use crate::outside::{GENERIC, READS, TRAINING};
use output::GoesOn;
use std::io;

fn main(rt: HostRuntime) -> io::Result<()> {
    let rt = GoesOn(rt);
    print!(rt; "{GENERIC}")?;
    bench::run_feature(&rt)?;
    print!(rt; "{READS}")?;
    notifications::run_all(&rt)?;
    print!(rt; "{TRAINING}")?;
    statuses::run_all(&rt)?;
    procedures::run_all(&rt)?;
    errors::run_all(&rt)
}
