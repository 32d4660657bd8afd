// A console under test, and a client, number 0, that writes to it and confirms each response.
use output::{Octets, first};
use record::feature::Feature;
use record::octets::u8_at;
use record::refusal::Refusal;
use service::control::Console;
use service::control::ranges::{HeartRateRange, Ranges, SignedRange, SpeedRange};
use service::control::spin_down::TargetSpeeds;
use std::fmt::Write;
use std::{fmt, io};

pub(crate) const PASS: &str = "pass";

// Every named bit of the features and of the target settings.
const FEATURE: [u8; 8] = [0xFF, 0xFF, 0x01, 0x00, 0xFF, 0xFF, 0x01, 0x00];

// Speed 1 to 60 km/h, inclination -10 to 15 %, resistance 1 to 10, power 10 to 500 W, heart rate 60 to 200; each in steps of 1:
// source document 003 does not speak of increments.
const RANGES: Ranges = Ranges {
    speed: SpeedRange {
        least: 100,
        greatest: 6000,
        increment: 1,
    },
    inclination: SignedRange {
        least: -100,
        greatest: 150,
        increment: 1,
    },
    resistance: SignedRange {
        least: 10,
        greatest: 100,
        increment: 1,
    },
    power: SignedRange {
        least: 10,
        greatest: 500,
        increment: 1,
    },
    heart_rate: HeartRateRange {
        least: 60,
        greatest: 200,
        increment: 1,
    },
};

// The target speeds: 10 and 20 km/h.
const SPEEDS: TargetSpeeds = TargetSpeeds {
    low: 1000,
    high: 2000,
};

// A start of spin down, and the response to it: "80 13 01 followed by a low and a high target speed, u16 each".
const START: [u8; 2] = [0x13, 0x01];

const STARTED: [u8; 7] = [0x80, 0x13, 0x01, 0xE8, 0x03, 0xD0, 0x07];

// What the client has written before a case: nothing, or what takes control, starts the machine and pauses it.
pub(crate) type Before = &'static [&'static [u8]];

pub(crate) const NOTHING: Before = &[];

pub(crate) const HOLDING: Before = &[b"\x00"];

pub(crate) const RUNNING: Before = &[b"\x00", b"\x07"];

pub(crate) const PAUSED: Before = &[b"\x00", b"\x07", b"\x08\x02"];

// A case that is one write, which succeeds: its number, what was written before, the write, and the status octet that is expected.
pub(crate) type Case = (u8, Before, &'static [u8], Option<u8>);

// A write, and the result and the status octet that are expected.
#[derive(Clone, Copy)]
pub(crate) struct Exchange(
    pub(crate) &'static [u8],
    pub(crate) u8,
    pub(crate) Option<u8>,
);

// A test case's identifier: its group and its number.
#[derive(Clone, Copy)]
pub(crate) struct Id(pub(crate) &'static str, pub(crate) u8);

impl fmt::Display for Id {
    fn fmt<W: fmt::Write>(&self, f: &mut fmt::Formatter<W>) -> fmt::Result {
        let Id(group, number) = self;
        write!(f, "FTMS/SR/{group}{number:02}-C")
    }
}

// A test case that is being run: the console, and whether each answer so far was the one expected.
#[derive(Clone, Copy)]
pub(crate) struct Bench {
    console: Console,
    expected: bool,
}

// Whether a status is this octet and then the parameter that was sent, or, for no octet, is none.
fn is_status(told: &[u8], sent: &[u8], status: Option<u8>) -> bool {
    match (told, sent, status) {
        ([], _, None) => true,
        ([octet, told @ ..], [_, sent @ ..], Some(status)) => *octet == status && told == sent,
        _ => false,
    }
}

// A console that is opened, its client connected with indications on, after writes that are each confirmed.
fn console_after(before: Before) -> Console {
    let mut console = Console::open(&FEATURE, RANGES, SPEEDS).console;
    console = console.connect(0).console;
    console = console.indicate(0, true).console;
    for sent in before {
        console = console.write(0, sent).console.confirm(0).console;
    }
    console
}

impl Bench {
    // Begins a case: prints its identifier, and words.
    pub(crate) fn begin(rt: &impl Print, id: Id, words: &str, before: Before) -> io::Result<Bench> {
        print!(rt; "{id}{words}")?;
        Ok(Bench {
            console: console_after(before),
            expected: true,
        })
    }

    // Goes on with the console of a reply, which was the one expected or not.
    fn go_on(&mut self, console: Console, expected: bool) {
        self.console = console;
        self.expected = self.expected && expected;
    }

    // Writes, prints what comes back, and compares it with what is expected.
    fn write(
        &mut self,
        rt: &impl Print,
        sent: &[u8],
        response: &[u8],
        status: Option<u8>,
    ) -> io::Result<()> {
        let reply = self.console.write(0, sent);
        let answer = reply.response.octets();
        let told = reply.status.octets();
        let expected = answer == response && is_status(told, sent, status);
        self.go_on(reply.console, expected);
        print!(rt; " sent{} response{}", Octets(sent), Octets(answer))?;
        print!(rt; " status{}", Octets(told))
    }

    // The client confirms the response.
    fn confirm(&mut self) {
        self.console = self.console.confirm(0).console;
    }

    // Writes, and compares the response's result and the status with those that are expected.
    pub(crate) fn answer(&mut self, rt: &impl Print, exchange: Exchange) -> io::Result<()> {
        let Exchange(sent, res, status) = exchange;
        self.write(rt, sent, &[0x80, u8_at(sent, 0), res], status)
    }

    // Writes, compares, and confirms.
    pub(crate) fn exchange(&mut self, rt: &impl Print, exchange: Exchange) -> io::Result<()> {
        self.answer(rt, exchange)?;
        self.confirm();
        Ok(())
    }

    // Starts a run of spin down, compares the response with the one that has the target speeds, and confirms it; "a start or an ignore gives none".
    pub(crate) fn start(&mut self, rt: &impl Print) -> io::Result<()> {
        self.write(rt, &START, &STARTED, None)?;
        self.confirm();
        Ok(())
    }

    // Feeds a flywheel speed, prints the status, and compares it with 14 and this value.
    pub(crate) fn feed(&mut self, rt: &impl Print, speed: u16, value: u8) -> io::Result<()> {
        let reply = self.console.flywheel(speed);
        let told = reply.status.octets();
        self.go_on(reply.console, told == [0x14, value].as_slice());
        print!(rt; " flywheel {speed} status{}", Octets(told))
    }

    // A write that must be refused with this number; prints the number, 0 for none.
    pub(crate) fn refused(&mut self, rt: &impl Print, sent: &[u8], number: u8) -> io::Result<()> {
        let reply = self.console.write(0, sent);
        let found = reply.outcome.err().map_or(0, Refusal::number);
        self.go_on(reply.console, found == number);
        print!(rt; " sent{} refused {found}", Octets(sent))
    }

    pub(crate) fn finish(self, rt: &impl Print, verdict: &str) -> io::Result<()> {
        conclude(rt, self.expected, verdict)
    }
}

// The verdict, if all was as expected; otherwise FAIL.
pub(crate) fn conclude(rt: &impl Print, expected: bool, verdict: &str) -> io::Result<()> {
    println!(rt; ": {}", if expected { verdict } else { "FAIL" })
}

// The Feature value of a machine that was opened with these octets.
fn feature_of(octets: &[u8]) -> Feature {
    let opened = Console::open(octets, RANGES, SPEEDS);
    opened.console.machine.setup.feature
}

// Whether the Feature value of the machine under test has a feature.
pub(crate) fn supports(feature: u8) -> bool {
    feature_of(&FEATURE).has_feature(feature)
}

// "the characteristic value is 8 octets with RFU bits set to 0", though the machine was opened with every bit set.
pub(crate) fn run_feature(rt: &impl Print) -> io::Result<()> {
    let octets = feature_of(&[0xFF; 8]).to_octets();
    print!(rt; "{} read{}", Id("CR/BV-", 1), Octets(&octets))?;
    conclude(rt, octets == FEATURE, PASS)
}

// A case of writes that are each confirmed.
pub(crate) fn run(
    rt: &impl Print,
    id: Id,
    words: &str,
    before: Before,
    exchanges: &[Exchange],
    verdict: &str,
) -> io::Result<()> {
    let mut bench = Bench::begin(rt, id, words, before)?;
    for exchange in exchanges {
        bench.exchange(rt, *exchange)?;
    }
    bench.finish(rt, verdict)
}

// Cases of one group.
pub(crate) fn run_cases(rt: &impl Print, group: &'static str, cases: &[Case]) -> io::Result<()> {
    for &(number, before, sent, status) in cases {
        let exchange = Exchange(sent, 0x01, status);
        run(rt, Id(group, number), "", before, &[exchange], PASS)?;
    }
    Ok(())
}

// A resistance level of two octets.
pub(crate) fn run_level(rt: &impl Print, id: Id) -> io::Result<()> {
    let exchange = Exchange(b"\x04\x32\x00", 0x03, None);
    let verdict = "departs (the resistance level is one octet)";
    run(rt, id, "", HOLDING, &[exchange], verdict)
}
