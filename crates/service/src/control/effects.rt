// What a write of an op code and its parameter does to the machine, and its status octets.
ghost use Rattle.std.specs.Prelude.{◌≡◌, [], ◌++◌, ◌≤◌, length};
ghost use Rattle.record.specs.Octets.{number};
ghost use Rattle.service.specs.Control.Counted.{boxed};
ghost use Rattle.service.specs.Control.SpinDown.{followed_by};
ghost use Rattle.service.specs.Control.Effects.{Room, response_octets, halted_to, status_octets, performs};
ghost use Rattle.service.specs.Control.Effects;

use crate::control::counted::Counted;
use crate::control::judging::{WriteResult, judged};
use crate::control::machine::{Machine, Mode};
use crate::control::op_codes::{Act, OpCode, Status, op_code};
use crate::control::spin_down::{TargetSpeeds, spun, starts_run};
use record::octets::u8_at;

// The response octets, the status octets, and the machine after it.
#[derive(Clone, Copy)]
pub(crate) struct Performed {
    pub response: Counted,
    pub status: Counted,
    pub machine: Machine,
}

// "Response: 80, op code, result."
fn response(op: u8, res: WriteResult) -> Counted
    ensures { result ≡ boxed (response_octets op res) }
{
    Counted::of(&[0x80, op, res.number()])
}

// The response to an op code that succeeds: "A successful start answers 80 13 01 followed by a low and a high target speed, u16 each".
#[tactic(auto, unfolding(record::specs::Octets::spelled))]
fn success(speeds: TargetSpeeds, op: u8, act: Act, x: u8) -> Counted
    ensures { result ≡ boxed (response_octets op WriteResult.Success ++ followed_by speeds act x) }
{
    let res = WriteResult::Success;
    if starts_run(act, x) {
        let [a, b] = speeds.low.to_le_bytes();
        let [c, d] = speeds.high.to_le_bytes();
        return Counted::of(&[0x80, op, res.number(), a, b, c, d]);
    }
    response(op, res)
}

// "08 stopped (1) or paused (2)"
fn halted(x: u8) -> Mode
    ensures { result ≡ halted_to x }
{
    if x == 1 {
        return Mode::Stopped;
    }
    Mode::Paused
}

// The machine after an op code has succeeded with its parameter. Machine, client and parameter are three parameters here and below, as
// `write` gets them: nothing holds all three.
fn done(machine: Machine, client: u8, act: Act, p: &[u8]) -> Machine
    requires { Room act (length p.now) }
    ensures { result ≡ Effects.done machine client act p.now }
{
    let x = u8_at(p, 0);
    match act {
        Act::TakesControl => Machine {
            holder: Some(client),
            ..machine
        },
        Act::Resets => Machine::fresh(machine.setup),
        Act::Starts => Machine {
            mode: Mode::Running,
            ..machine
        },
        Act::Halts => Machine {
            mode: halted(x),
            ..machine
        },
        Act::Stores(place) => machine.storing(place, p),
        Act::SpinsDown => Machine {
            run: spun(x),
            ..machine
        },
    }
}

// The status octets of an op code that succeeds with its parameter.
fn says(status: Status, p: &[u8]) -> Counted
    requires { length p.now ≤ 10 }
    ensures { result ≡ boxed (status_octets status p.now) }
{
    match status {
        Status::Silent => Counted::of(&[]),
        Status::Octet(x) => Counted::of(&[x]),
        Status::Echo(x) => Counted::with_parameter(x, p),
    }
}

// A write that has a result and does nothing else.
fn failed(machine: Machine, op: u8, res: WriteResult) -> Performed
    ensures { result ≡ record { response = boxed (response_octets op res); status = boxed []; machine = machine } }
{
    Performed {
        response: response(op, res),
        status: Counted::of(&[]),
        machine,
    }
}

// A write that succeeds.
fn granted(machine: Machine, client: u8, op: u8, code: OpCode, p: &[u8]) -> Performed
    requires short { length p.now ≤ 10 }
    requires room { Room code.act (length p.now) }
    ensures { result ≡ record { response = boxed (response_octets op WriteResult.Success ++ followed_by machine.setup.speeds code.act (number 1 p.now)); status = boxed (status_octets code.status p.now); machine = Effects.done machine client code.act p.now } }
{
    let x = u8_at(p, 0);
    Performed {
        response: success(machine.setup.speeds, op, code.act, x),
        status: says(code.status, p),
        machine: done(machine, client, code.act, p),
    }
}

// What a client's write of an op code and its parameter does: "02 to 05 change nothing else".
#[tactic(auto, using(crate::proofs::ControlLaws::Fits::granted_short, crate::proofs::ControlLaws::Fits::granted_room))]
pub(crate) fn perform(machine: Machine, client: u8, op: u8, p: &[u8]) -> Performed
    ensures { result ≡ performs machine client op p.now }
{
    let Some(code) = op_code(op) else {
        return failed(machine, op, WriteResult::NotSupported);
    };
    match judged(machine, client, code, p) {
        WriteResult::Success => granted(machine, client, op, code, p),
        res => failed(machine, op, res),
    }
}

// The setting that an op code stores, 0 at first; no octets for an op code that stores none.
#[tactic(auto, using(crate::proofs::ControlLaws::Rule::size_most, crate::proofs::ControlLaws::Rule::stored_within), unfolding(crate::specs::Control::Effects::setting))]
pub(crate) fn setting(machine: Machine, op: u8) -> Counted
    ensures { result ≡ boxed (Effects.setting machine op) }
{
    match op_code(op) {
        Some(
            OpCode {
                parameter,
                act: Act::Stores(place),
                ..
            },
        ) => {
            let start = place as usize;
            Counted::of(&machine.settings[start..start + parameter.length() as usize])
        }
        _ => Counted::of(&[]),
    }
}
