// The result of a write, in the order 02, 05, 03, 04, 01.
ghost use Rattle.std.specs.Prelude.{◌≡◌};
ghost use Rattle.service.specs.Control.Judging.{result_number, no_halt, no_start, first_of};
ghost use Rattle.service.specs.Control.Judging;

use crate::control::machine::{Machine, Mode};
use crate::control::op_codes::{Act, OpCode};
use crate::control::ranges::Ranges;
use crate::control::spin_down::Run;
use record::feature::Feature;
use record::octets::u8_at;

// The result of a write, by document 01's number.
#[derive(Clone, Copy, PartialEq, Eq, Debug)]
pub enum WriteResult {
    Success = 0x01,
    NotSupported = 0x02,
    InvalidParameter = 0x03,
    OperationFailed = 0x04,
    ControlNotPermitted = 0x05,
}

impl WriteResult {
    // The result octet of a response.
    pub fn number(self) -> u8
        ensures { result ≡ result_number self }
    {
        self as u8
    }
}

// Whether the machine has the target setting that an op code needs.
fn supports(feature: Feature, need: Option<u8>) -> bool
    ensures { result ≡ Judging.supports feature need }
{
    need.is_none_or(|bit| feature.has_target(bit))
}

// Whether a client may write an op code: the holder, or anyone for 00.
fn controls(holder: Option<u8>, client: u8, act: Act) -> bool
    ensures { result ≡ Judging.controls holder client act }
{
    act == Act::TakesControl || holder == Some(client)
}

// Whether a parameter has the right length and is allowed by what bounds it.
#[tactic(auto, unfolding(crate::specs::Control::Judging::fit))]
fn fit(ranges: Ranges, code: OpCode, p: &[u8]) -> bool
    ensures { result ≡ Judging.fit ranges code p.now }
{
    p.len() == code.parameter.length() as usize && ranges.allow(code.bound, p)
}

// "08 with 1 finds stopped, or 08 with 2 finds anything but running"
fn cannot_halt(mode: Mode, x: u8) -> bool
    ensures { result ≡ no_halt mode x }
{
    match mode {
        Mode::Stopped => true,
        Mode::Running => false,
        Mode::Paused => x != 1,
    }
}

// "04 for a start during a run"
fn cannot_start(run: Run, x: u8) -> bool
    ensures { result ≡ no_start run x }
{
    run != Run::Off && x == 1
}

// Whether the result is 04, if it is not 02, 05 or 03.
fn fails(machine: Machine, client: u8, act: Act, x: u8) -> bool
    ensures { result ≡ Judging.fails machine client act x }
{
    match act {
        Act::TakesControl => machine.holder.is_some_and(|holder| holder != client),
        Act::Starts => machine.mode == Mode::Running,
        Act::Halts => cannot_halt(machine.mode, x),
        Act::SpinsDown => cannot_start(machine.run, x),
        Act::Resets | Act::Stores(_) => false,
    }
}

// The result of a write of an op code of the table with a parameter: the first that applies.
#[tactic(auto, unfolding(crate::specs::Control::Judging::judged))]
pub(crate) fn judged(machine: Machine, client: u8, code: OpCode, p: &[u8]) -> WriteResult
    ensures { result ≡ Judging.judged machine client code p.now }
{
    if !supports(machine.setup.feature, code.need) {
        return WriteResult::NotSupported;
    }
    if !controls(machine.holder, client, code.act) {
        return WriteResult::ControlNotPermitted;
    }
    if !fit(machine.setup.ranges, code, p) {
        return WriteResult::InvalidParameter;
    }
    if fails(machine, client, code.act, u8_at(p, 0)) {
        return WriteResult::OperationFailed;
    }
    WriteResult::Success
}
