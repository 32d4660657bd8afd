// The op codes of the control point, and the results of a write.
use crate::clients::resulting;
use crate::written::Written;
use service::control::op_codes::{Bound, Status, op_code};
use service::control::parameters::Parameter;
use std::{fmt, io};

// What each op code is for, from 00 on.
const NAMES: [&str; 21] = [
    "request control",
    "reset",
    "speed",
    "inclination",
    "resistance",
    "power",
    "heart rate",
    "start or resume",
    "stop (1) or pause (2)",
    "energy",
    "steps",
    "strides",
    "distance",
    "time",
    "two zones",
    "three zones",
    "five zones",
    "wind, grade, rolling, drag",
    "wheel",
    "spin down: start (1) or ignore (2)",
    "cadence",
];

// When each result is given, in the order in which they are judged.
const RESULTS: [&str; 5] = [
    "the op code is not supported",
    "the client does not hold control (but for 00)",
    "wrong length, a value outside its range or off its steps, or 08 or 13 with neither 1 nor 2",
    "00 finds another holder, 07 finds running, 08 with 1 finds stopped, 08 with 2 finds anything but running, or 13 with 1 finds a run",
    "otherwise: success",
];

// The widths of a parameter's numbers.
#[derive(Clone, Copy)]
struct Widths(Parameter);

impl fmt::Display for Widths {
    fn fmt<W: fmt::Write>(&self, f: &mut fmt::Formatter<W>) -> fmt::Result {
        let parameter = self.0;
        if parameter.count() == 0 {
            return write!(f, "none");
        }
        // by number and no chain: `width` is asked for each number, since no call lends the widths
        for i in 0..parameter.count() {
            if i > 0 {
                write!(f, ", ")?;
            }
            write!(f, "{}", Written::Width(parameter.width(i)))?;
        }
        Ok(())
    }
}

// The range that bounds a parameter.
fn range_name(bound: Bound) -> &'static str {
    match bound {
        Bound::Free | Bound::OneOrTwo => "none",
        Bound::Speed => "speed",
        Bound::Inclination => "inclination",
        Bound::Resistance => "resistance",
        Bound::Power => "power",
        Bound::HeartRate => "heart rate",
    }
}

// The target bit that an op code needs.
#[derive(Clone, Copy)]
struct Needed(Option<u8>);

impl fmt::Display for Needed {
    fn fmt<W: fmt::Write>(&self, f: &mut fmt::Formatter<W>) -> fmt::Result {
        match self.0 {
            None => write!(f, "always supported"),
            Some(bit) => write!(f, "{bit}"),
        }
    }
}

// The status octets: the first, and the parameter if it follows.
#[derive(Clone, Copy)]
struct Said(Status);

impl fmt::Display for Said {
    fn fmt<W: fmt::Write>(&self, f: &mut fmt::Formatter<W>) -> fmt::Result {
        match self.0 {
            Status::Silent => write!(f, "none"),
            Status::Octet(x) => write!(f, "{x:02X}"),
            Status::Echo(x) => write!(f, "{x:02X} and the parameter"),
        }
    }
}

// The line of an op code; the table has every op code up to the last, so that no line has dashes.
fn print_op_code(rt: &impl Print, op: u8, name: &str) -> io::Result<()> {
    match op_code(op) {
        Some(code) => println!(rt;
            "| {op:02X} | {name} | {} | {} | {} | {} | {} |",
            Widths(code.parameter),
            code.parameter.length(),
            range_name(code.bound),
            Needed(code.need),
            Said(code.status),
        ),
        None => println!(rt; "| {op:02X} | {name} | - | - | - | - | - |"),
    }
}

fn print_op_codes(rt: &impl Print) -> io::Result<()> {
    print!(rt;
        "\n## Op codes\n\n| op code | name | parameter | octets | range | target bit it needs | status where it succeeds |\n|---|---|---|---|---|---|---|\n"
    )?;
    for (op, name) in (0..).zip(NAMES) {
        print_op_code(rt, op, name)?;
    }
    Ok(())
}

// The results come from a write in which less and less is wrong.
fn print_results(rt: &impl Print) -> io::Result<()> {
    print!(rt; "\n## Results\n\n| result | given when |\n|---|---|\n")?;
    for (step, when) in (0..).zip(RESULTS) {
        println!(rt; "| {:02X} | {when} |", resulting(step))?;
    }
    Ok(())
}

pub(crate) fn print_control(rt: &impl Print) -> io::Result<()> {
    println!(rt; "\n# Control point")?;
    print_op_codes(rt)?;
    print_results(rt)
}
