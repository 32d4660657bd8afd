// The table of op codes, one line per op code.
ghost use Rattle.std.specs.Prelude.{◌≡◌, Some};
ghost use Rattle.service.specs.Control.OpCodes.{known, op_code};

use crate::control::op_codes::Act::{Halts, Resets, SpinsDown, Starts, Stores, TakesControl};
use crate::control::op_codes::Bound::{
    Free, HeartRate, Inclination, OneOrTwo, Power, Resistance, Speed,
};
use crate::control::op_codes::Status::{Echo, Octet, Silent};
use crate::control::parameters::Parameter;
use crate::control::parameters::Parameter::{
    Empty, FiveZones, One, Simulation, ThreeZones, TwoZones,
};
use record::layout::Width;

// What bounds a parameter: nothing, one of the ranges, or that it is 1 or 2.
#[derive(Clone, Copy)]
pub enum Bound {
    Free,
    Speed,
    Inclination,
    Resistance,
    Power,
    HeartRate,
    OneOrTwo,
}

// What success says: nothing, a status octet, or a status octet and the parameter.
#[derive(Clone, Copy)]
pub enum Status {
    Silent,
    Octet(u8),
    Echo(u8),
}

// What success does: gives control, resets, starts, stops or pauses, stores the parameter among the settings from an index on, or starts or ignores a
// run of spin down.
#[derive(Clone, Copy, PartialEq, Eq, Debug)]
pub enum Act {
    TakesControl,
    Resets,
    Starts,
    Halts,
    Stores(u8),
    SpinsDown,
}

// What the table says about an op code; `need` is the target bit that it needs, if any.
#[derive(Clone, Copy)]
pub struct OpCode {
    pub parameter: Parameter,
    pub need: Option<u8>,
    pub bound: Bound,
    pub status: Status,
    pub act: Act,
}

const U8: Parameter = One(Width::U8);

const U16: Parameter = One(Width::U16);

const U24: Parameter = One(Width::U24);

const S16: Parameter = One(Width::S16);

// A line of the table: its columns in their order.
fn line(
    parameter: Parameter,
    need: Option<u8>,
    bound: Bound,
    status: Status,
    act: Act,
) -> Option<OpCode>
    ensures { result ≡ Some (known parameter need bound status act) }
{
    Some(OpCode {
        parameter,
        need,
        bound,
        status,
        act,
    })
}

// A line of the table that sets a target: its parameter, its target bit, what bounds it, the status octet before the parameter, and its index in the settings.
fn target(parameter: Parameter, bit: u8, bound: Bound, status: u8, place: u8) -> Option<OpCode>
    ensures { result ≡ Some (known parameter (Some bit) bound (Status.Echo status) (Act.Stores place)) }
{
    line(parameter, Some(bit), bound, Echo(status), Stores(place))
}

// What the table says about an op code, if it has it; each line begins with its op code.
#[tactic(auto, using(crate::proofs::ControlLaws::Rule::not_there), unfolding(crate::specs::Control::OpCodes::op_code))]
pub fn op_code(op: u8) -> Option<OpCode>
    ensures { result ≡ op_code op }
{
    match op {
        0x00 => line(Empty, None, Free, Silent, TakesControl),
        0x01 => line(Empty, None, Free, Octet(0x01), Resets),
        0x02 => target(U16, 0, Speed, 0x05, 0),
        0x03 => target(S16, 1, Inclination, 0x06, 2),
        0x04 => target(U8, 2, Resistance, 0x07, 4),
        0x05 => target(S16, 3, Power, 0x08, 5),
        0x06 => target(U8, 4, HeartRate, 0x09, 7),
        0x07 => line(Empty, None, Free, Octet(0x04), Starts),
        0x08 => line(U8, None, OneOrTwo, Echo(0x02), Halts),
        0x09 => target(U16, 5, Free, 0x0a, 8),
        0x0a => target(U16, 6, Free, 0x0b, 10),
        0x0b => target(U16, 7, Free, 0x0c, 12),
        0x0c => target(U24, 8, Free, 0x0d, 14),
        0x0d => target(U16, 9, Free, 0x0e, 17),
        0x0e => target(TwoZones, 10, Free, 0x0f, 19),
        0x0f => target(ThreeZones, 11, Free, 0x10, 23),
        0x10 => target(FiveZones, 12, Free, 0x11, 29),
        0x11 => target(Simulation, 13, Free, 0x12, 39),
        0x12 => target(U16, 14, Free, 0x13, 45),
        0x13 => line(U8, Some(15), OneOrTwo, Silent, SpinsDown),
        0x14 => target(U16, 16, Free, 0x15, 47),
        _ => None,
    }
}
