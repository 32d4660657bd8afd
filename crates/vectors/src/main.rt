// The run cases of the record layer and the collector: records in parts and back, refusals, numbers, the Feature value, and collections. The
// output is compared with the file `stdout`, which tools/vectors.py writes from document 01 alone.
#![tactic(auto)]

mod collections;
mod lines;
mod plain;
mod printing;
mod refusals;
mod runs;
mod samples;
mod steps;

use output::GoesOn;
use std::io;

fn main(rt: HostRuntime) -> io::Result<()> {
    let rt = GoesOn(rt);
    runs::run_all(&rt)?;
    refusals::run_all(&rt)?;
    plain::run_all(&rt)?;
    collections::run_all(&rt)
}
