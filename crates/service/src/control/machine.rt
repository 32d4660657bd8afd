// The machine that op codes act on: what it was opened with, who holds control, its mode, its settings, and its run of spin down.
ghost use Rattle.std.specs.Prelude.{◌≡◌, ◌+◌, ◌≤◌, length};
ghost use Rattle.record.specs.Octets.{placed};
ghost use Rattle.service.specs.Control.Machine.{usable};
ghost use Rattle.service.specs.Control.Machine as MachineSpecs;

use crate::control::ranges::Ranges;
use crate::control::spin_down::{Run, TargetSpeeds};
use record::feature::Feature;

// What a machine does; 07 sets running, 08 stopped or paused.
#[derive(Clone, Copy, PartialEq, Eq, Debug)]
pub enum Mode {
    Stopped,
    Running,
    Paused,
}

// What a machine is opened with: "A machine is opened with a Feature value and its ranges.", and target speeds, "fixed when the machine is opened".
#[derive(Clone, Copy)]
pub struct Setup {
    pub feature: Feature,
    pub ranges: Ranges,
    pub speeds: TargetSpeeds,
}

// What op codes act on. The holder of control is a client by its number, if anyone holds it. The sixteen settings follow one another in the order of op
// codes, in 49 octets.
#[derive(Clone, Copy)]
pub struct Machine {
    pub setup: Setup,
    pub holder: Option<u8>,
    pub mode: Mode,
    pub settings: [u8; 49],
    pub run: Run,
}

impl Setup {
    // Whether a machine can be opened with it; refusal 16 if it cannot.
    pub(crate) fn is_usable(self) -> bool
        ensures { result ≡ usable self }
    {
        self.ranges.are_ranges() && self.speeds.are_in_order()
    }
}

// Nobody if it is this client, otherwise as it was.
pub(crate) fn without(who: Option<u8>, client: u8) -> Option<u8>
    ensures { result ≡ MachineSpecs.without who client }
{
    who.filter(|held| *held != client)
}

impl Machine {
    // "At first it is stopped, .. nobody holds control, and every setting is zero."; a reset leaves this too.
    pub(crate) fn fresh(setup: Setup) -> Machine
        ensures { result ≡ MachineSpecs.fresh setup }
    {
        Machine {
            setup,
            holder: None,
            mode: Mode::Stopped,
            settings: [0u8; 49],
            run: Run::Off,
        }
    }

    // A client leaves: "Disconnect frees control held by that client", and "disconnect of the holder .. ends a run".
    pub(crate) fn freed(self, client: u8) -> Machine
        ensures { result ≡ MachineSpecs.freed self client }
    {
        if self.holder == Some(client) {
            return Machine {
                holder: None,
                run: Run::Off,
                ..self
            };
        }
        self
    }

    // Stores a setting, from an index on.
    #[tactic(auto, using(crate::proofs::ControlLaws::Boxes::copied))]
    pub(crate) fn storing(mut self, place: u8, octets: &[u8]) -> Machine
        requires { place + length octets.now ≤ 49 }
        ensures { result ≡ MachineSpecs.storing self (placed self.settings place octets.now) }
    {
        let start = place as usize;
        self.settings[start..start + octets.len()].copy_from_slice(octets);
        self
    }
}
