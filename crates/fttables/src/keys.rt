// The keys of a listing, except the fields'.
use output::Ascii;
use std::io;
use text::names::{DIRECTION, GROUPS, KIND, RECORD, REFUSED};

// The line of a key: the key, and what follows it.
fn print_key(rt: &impl Print, key: &[u8], what: &str) -> io::Result<()> {
    println!(rt; "| `{}` | {what} |", Ascii(key))
}

pub(crate) fn print_keys(rt: &impl Print) -> io::Result<()> {
    print!(rt; "\n# Listing\n\n## Keys\n\n| key | what follows it |\n|---|---|\n")?;
    print_key(rt, RECORD, "the number of the record, counted from 1")?;
    print_key(rt, KIND, "the kind, 1 to 6")?;
    print_key(
        rt,
        GROUPS,
        "the set of optional groups: the sum of 2 to the power of each bit",
    )?;
    print_key(
        rt,
        DIRECTION,
        "0 forward, 1 backward; 0 for every kind but the cross trainer",
    )?;
    print_key(rt, REFUSED, "the number of a refusal")
}
