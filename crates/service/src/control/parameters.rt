// The parameters of the op codes: how many numbers each has, how wide they are, and how many octets they take.
ghost use Rattle.std.specs.Prelude.{◌≡◌, cond, ltb, get_or};
ghost use Rattle.std.specs.Prelude;
ghost use Rattle.record.specs.declared.layout.Width.TheVariants.{U8};
ghost use Rattle.service.specs.Control.Parameters.{widths, size};

use record::layout::{Width, width_length};

// No parameter, one number, a u16 for each zone, or "wind s16, grade s16, rolling u8, drag u8".
#[derive(Clone, Copy)]
pub enum Parameter {
    Empty,
    One(Width),
    TwoZones,
    ThreeZones,
    FiveZones,
    Simulation,
}

// A width for the numbers below `end`, and u8 from there on.
fn below(i: u8, end: u8, width: Width) -> Width
    ensures { result ≡ cond (ltb i end) width U8 }
{
    if i < end {
        return width;
    }
    Width::U8
}

impl Parameter {
    // The number of octets that a parameter takes.
    pub fn length(self) -> u8
        ensures { result ≡ size self }
    {
        match self {
            Parameter::Empty => 0,
            Parameter::One(width) => width_length(width) as u8,
            Parameter::TwoZones => 4,
            Parameter::ThreeZones => 6,
            Parameter::FiveZones => 10,
            Parameter::Simulation => 6,
        }
    }

    // How many numbers a parameter has.
    pub fn count(self) -> u8
        ensures { result ≡ Prelude.length (widths self) }
    {
        match self {
            Parameter::Empty => 0,
            Parameter::One(_) => 1,
            Parameter::TwoZones => 2,
            Parameter::ThreeZones => 3,
            Parameter::FiveZones => 5,
            Parameter::Simulation => 4,
        }
    }

    // The width of number i of a parameter; past the last one, u8.
    pub fn width(self, i: u8) -> Width
        ensures { result ≡ get_or (widths self) i U8 }
    {
        match self {
            Parameter::Empty => Width::U8,
            Parameter::One(width) => below(i, 1, width),
            Parameter::TwoZones => below(i, 2, Width::U16),
            Parameter::ThreeZones => below(i, 3, Width::U16),
            Parameter::FiveZones => below(i, 5, Width::U16),
            Parameter::Simulation => below(i, 2, Width::S16),
        }
    }
}
