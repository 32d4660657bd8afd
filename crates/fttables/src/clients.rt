// The calls of the control point, made step by step as in records.rt: a step gives the number of
// the refusal, if there is one; and the results of writes.
use crate::records::number_of;
use crate::steps::mended;
use output::first;
use service::control::Console;
use service::control::judging::WriteResult;
use service::control::ranges::{HeartRateRange, Ranges, SignedRange, SpeedRange};
use service::control::spin_down::TargetSpeeds;

// The target speeds of each machine that is opened here: 10 and 20 km/h.
pub(crate) const SPEEDS: TargetSpeeds = TargetSpeeds {
    low: 1000,
    high: 2000,
};

// From 0 to 0, in steps of 1.
const SIGNED: SignedRange = SignedRange {
    least: 0,
    greatest: 0,
    increment: 1,
};

// Each range is from 0 to 0, in steps of 1.
pub(crate) const RANGES: Ranges = Ranges {
    speed: SpeedRange {
        least: 0,
        greatest: 0,
        increment: 1,
    },
    inclination: SIGNED,
    resistance: SIGNED,
    power: SIGNED,
    heart_rate: HeartRateRange {
        least: 0,
        greatest: 0,
        increment: 1,
    },
};

pub(crate) const REQUEST_CONTROL: [u8; 1] = [0x00];

// Start or resume.
pub(crate) const START: [u8; 1] = [0x07];

// The result of a write that does what it asks for.
pub(crate) const SUCCESS: u8 = WriteResult::Success as u8;

// Opens a machine, with the Feature value's length and the ranges put right in turn: the least
// speed is above the greatest at first.
pub(crate) fn opening(step: u8) -> Option<u8> {
    let speed = SpeedRange {
        least: mended(step, 2, 1, 0),
        ..RANGES.speed
    };
    let feature = first(&[0; 8], mended(step, 1, 7, 8));
    number_of(Console::open(feature, Ranges { speed, ..RANGES }, SPEEDS).outcome)
}

// The console after a client connects and turns its indications on.
pub(crate) fn joined(console: Console, client: u8) -> Console {
    console
        .connect(client)
        .console
        .indicate(client, true)
        .console
}

// The console after a write by client 0, and its confirmation.
pub(crate) fn after(console: Console, octets: &[u8]) -> Console {
    console.write(0, octets).console.confirm(0).console
}

// A console with a response due to client 0; client 1 is connected with indications off, and no
// other is connected.
fn awaiting() -> Console {
    let opened = Console::open(&[0; 8], RANGES, SPEEDS).console;
    let written = joined(opened, 0).write(0, &REQUEST_CONTROL).console;
    written.connect(1).console
}

// Connects client 4, then one that is connected, then one that is not.
pub(crate) fn connecting(step: u8) -> Option<u8> {
    let client = mended(step, 1, 4, mended(step, 2, 1, 2));
    number_of(awaiting().connect(client).outcome)
}

// Client 4, then one that is not connected, then one that is: a client, and no code.
fn client_at(step: u8) -> u8 {
    mended(step, 1, 4, mended(step, 2, 2, 1))
}

// Disconnects these clients in turn.
pub(crate) fn disconnecting(step: u8) -> Option<u8> {
    number_of(awaiting().disconnect(client_at(step)).outcome)
}

// Turns indications on for these clients in turn.
pub(crate) fn indicating(step: u8) -> Option<u8> {
    number_of(awaiting().indicate(client_at(step), true).outcome)
}

// Confirms by these clients in turn, and then by the one to whom a response is due.
pub(crate) fn confirming(step: u8) -> Option<u8> {
    let client = mended(step, 3, client_at(step), 0);
    number_of(awaiting().confirm(client).outcome)
}

// Writes by these clients in turn, with the octets, then the client's indications and then the
// awaited response put right.
pub(crate) fn writing(step: u8) -> Option<u8> {
    let console = mended(step, 5, awaiting(), holding());
    let client = mended(step, 4, client_at(step), 0);
    let octets = first(&REQUEST_CONTROL, mended(step, 3, 0, 1));
    number_of(console.write(client, octets).outcome)
}

// A console whose client 0 holds control, with no response due.
pub(crate) fn holding() -> Console {
    awaiting().confirm(0).console
}

// The result of a write in which the op code, the client, the length and the machine's state are
// put right in turn. Client 0 holds control, client 1 can write too, and the machine runs at first.
pub(crate) fn resulting(step: u8) -> u8 {
    let stopped = holding().indicate(1, true).console;
    let console = mended(step, 4, after(stopped, &START), stopped);
    let octets = [mended(step, 1, 0x13, 0x07), 0];
    let client = mended(step, 2, 1, 0);
    let sent = first(&octets, mended(step, 3, 2, 1));
    console.write(client, sent).response.octets[2]
}
