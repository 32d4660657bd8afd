// How a line opens a console, and what is printed of one: the reply to a call, then the whole state after it.
use crate::printing::Said;
use output::Octets;
use output::state::ModeWords;
use record::feature::Feature;
use record::octets::{s16_at, u8_at, u16_at};
use service::control::counted::Counted;
use service::control::machine::{Machine, Setup};
use service::control::ranges::{HeartRateRange, Ranges, SignedRange, SpeedRange};
use service::control::spin_down::{Run, TargetSpeeds};
use service::control::{Console, Reply};
use std::fmt;

// The ranges in 27 octets: speed, inclination, resistance, power and heart rate, each its least value, its greatest and its increment.
fn ranges_at(s: &[u8]) -> Ranges {
    Ranges {
        speed: SpeedRange {
            least: u16_at(s, 0),
            greatest: u16_at(s, 2),
            increment: u16_at(s, 4),
        },
        inclination: signed_range_at(s, 6),
        resistance: signed_range_at(s, 12),
        power: signed_range_at(s, 18),
        heart_rate: HeartRateRange {
            least: u8_at(s, 24),
            greatest: u8_at(s, 25),
            increment: u8_at(s, 26),
        },
    }
}

fn signed_range_at(s: &[u8], at: u8) -> SignedRange {
    let first = usize::from(at);
    SignedRange {
        least: s16_at(s, first),
        greatest: s16_at(s, first + 2),
        increment: u16_at(s, first + 4),
    }
}

// The target speeds, in the four octets after the ranges.
fn speeds_at(s: &[u8]) -> TargetSpeeds {
    TargetSpeeds {
        low: u16_at(s, 27),
        high: u16_at(s, 29),
    }
}

// Opens a machine: its ranges, its target speeds, and all octets after them as the Feature value; what is too short for these is a Feature value as a whole.
pub(crate) fn opened(s: &[u8]) -> Reply {
    let feature = s.get(31..).unwrap_or(s);
    Console::open(feature, ranges_at(s), speeds_at(s))
}

// A count, and all octets, even those past the count.
#[derive(Clone, Copy)]
pub(crate) struct Padded(pub(crate) Counted);

impl fmt::Display for Padded {
    fn fmt<W: fmt::Write>(&self, f: &mut fmt::Formatter<W>) -> fmt::Result {
        let counted = self.0;
        write!(f, "{}:{}", counted.count, Octets(&counted.octets))
    }
}

// Nobody, or the number of a client.
#[derive(Clone, Copy)]
struct Number(Option<u8>);

impl fmt::Display for Number {
    fn fmt<W: fmt::Write>(&self, f: &mut fmt::Formatter<W>) -> fmt::Result {
        match self.0 {
            None => write!(f, "nobody"),
            Some(client) => write!(f, "{client}"),
        }
    }
}

// The words of the lines that another implementation prints too, which are shorter than those of `output`.
fn run_name(run: Run) -> &'static str {
    match run {
        Run::Off => "off",
        Run::Quiet => "quiet",
        Run::Warned => "warned",
    }
}

// The least value of a range, its greatest and its increment.
#[derive(Clone, Copy)]
struct Steps<T, I>(T, T, I);

impl<T: fmt::Display, I: fmt::Display> fmt::Display for Steps<T, I> {
    fn fmt<W: fmt::Write>(&self, f: &mut fmt::Formatter<W>) -> fmt::Result {
        let Steps(least, greatest, increment) = self;
        write!(f, "{least} to {greatest} by {increment}")
    }
}

// The ranges by their names.
#[derive(Clone, Copy)]
struct Bounds<'a>(&'a Ranges);

impl fmt::Display for Bounds<'_> {
    fn fmt<W: fmt::Write>(&self, f: &mut fmt::Formatter<W>) -> fmt::Result {
        let ranges = self.0;
        let range = ranges.speed;
        let steps = Steps(range.least, range.greatest, range.increment);
        write!(f, " speed={steps}")?;
        for (name, range) in [
            ("inclination", ranges.inclination),
            ("resistance", ranges.resistance),
            ("power", ranges.power),
        ] {
            let steps = Steps(range.least, range.greatest, range.increment);
            write!(f, " {name}={steps}")?;
        }
        let range = ranges.heart_rate;
        let steps = Steps(range.least, range.greatest, range.increment);
        write!(f, " heart_rate={steps}")
    }
}

// A machine.
#[derive(Clone, Copy)]
struct Whole<'a>(&'a Machine);

impl fmt::Display for Whole<'_> {
    fn fmt<W: fmt::Write>(&self, f: &mut fmt::Formatter<W>) -> fmt::Result {
        let machine = self.0;
        let holder = Number(machine.holder);
        let settings = Octets(&machine.settings);
        let Setup {
            feature,
            ranges,
            speeds,
        } = machine.setup;
        let Feature { features, targets } = feature;
        let TargetSpeeds { low, high } = speeds;
        write!(f, " {} holder={holder}", ModeWords(machine.mode))?;
        write!(f, " settings:{settings}")?;
        write!(f, " features={features} targets={targets}")?;
        write!(f, "{} low={low} high={high}", Bounds(&ranges))?;
        write!(f, " run={}", run_name(machine.run))
    }
}

// A console: two digits for each client, whether it is connected and whether its indications are on; whose response is awaited; and its machine.
#[derive(Clone, Copy)]
struct State<'a>(&'a Console);

impl fmt::Display for State<'_> {
    fn fmt<W: fmt::Write>(&self, f: &mut fmt::Formatter<W>) -> fmt::Result {
        let console = self.0;
        write!(f, " clients:")?;
        for client in &console.clients {
            let connected = u8::from(client.connected);
            let indicating = u8::from(client.indicating);
            write!(f, " {connected}{indicating}")?;
        }
        let awaited = Number(console.awaited);
        write!(f, " awaited={awaited}{}", Whole(&console.machine))
    }
}

// A reply, and the console after the call.
#[derive(Clone, Copy)]
pub(crate) struct Replied<'a>(pub(crate) &'a Reply);

impl fmt::Display for Replied<'_> {
    fn fmt<W: fmt::Write>(&self, f: &mut fmt::Formatter<W>) -> fmt::Result {
        let reply = self.0;
        let response = Padded(reply.response);
        let status = Padded(reply.status);
        write!(f, "{} response={response}", Said("done", reply.outcome))?;
        write!(f, " status={status}{}", State(&reply.console))
    }
}
