// The control point: a console is opened, clients connect, write op codes and confirm responses, and the flywheel's speeds are fed. A console goes in and
// comes back by value.
pub mod counted;
mod effects;
pub mod judging;
pub mod machine;
pub mod op_codes;
pub mod parameters;
pub mod ranges;
pub mod spin_down;

ghost use Rattle.std.specs.Prelude.{◌≡◌, ◌≤◌};
ghost use Rattle.record.specs.Refusal.{number_of};
ghost use Rattle.service.specs.Control.Counted.{boxed};
ghost use Rattle.service.specs.Control.Effects;
ghost use Rattle.service.specs.Control.Console.{first, connected, with_client};
ghost use Rattle.service.specs.Control.Console as ConsoleSpecs;
ghost use Rattle.service.specs.Control.Replies.{Says, refuses, accepts};
ghost use Rattle.service.specs.Control.Calls.{opening, opens, connects, disconnects, indicates, confirms, answers, writes, feeds};

use crate::control::counted::Counted;
use crate::control::effects::{perform, setting};
use crate::control::machine::{Machine, Setup, without};
use crate::control::ranges::Ranges;
use crate::control::spin_down::{TargetSpeeds, feed};
use record::feature::Feature;
use record::refusal::Refusal;

// Whether a client is connected, and whether its indications are on: two flags, as the calls turn them.
#[derive(Clone, Copy)]
pub struct Client {
    pub connected: bool,
    pub indicating: bool,
}

// What the calls act on: the machine, the four clients, and the client whose response awaits confirmation, if one does.
#[derive(Clone, Copy)]
pub struct Console {
    pub machine: Machine,
    pub clients: [Client; 4],
    pub awaited: Option<u8>,
}

// The reply to a call: whether it was done or refused, the response octets, the status octets (either may be empty), and the console after it:
// a struct with a `Result` in it, since a refused call gives its console too.
#[derive(Clone, Copy)]
pub struct Reply {
    pub outcome: Result<(), Refusal>,
    pub response: Counted,
    pub status: Counted,
    pub console: Console,
}

const ABSENT: Client = Client {
    connected: false,
    indicating: false,
};

fn accepted(console: Console) -> Reply
    ensures { Says result (accepts console) }
{
    Reply {
        outcome: Ok(()),
        response: Counted::of(&[]),
        status: Counted::of(&[]),
        console,
    }
}

fn refused(console: Console, why: Refusal) -> Reply
    ensures { Says result (refuses console (number_of why)) }
{
    Reply {
        outcome: Err(why),
        ..accepted(console)
    }
}

// "At first it is stopped, no client is connected, nobody holds control, and every setting is zero."
fn opened(setup: Setup) -> Console
    ensures { result ≡ first setup }
{
    Console {
        machine: Machine::fresh(setup),
        clients: [ABSENT; 4],
        awaited: None,
    }
}

// The console in a reply that refuses to open one: it supports no target setting, and each number of its ranges and target speeds is 0.
fn closed() -> Console
    ensures { result ≡ ConsoleSpecs.closed }
{
    opened(Setup {
        feature: Feature {
            features: 0,
            targets: 0,
        },
        ranges: Ranges::default(),
        speeds: TargetSpeeds::default(),
    })
}

impl Console {
    // Opens a console with the octets of a Feature value, the machine's ranges and its target speeds; refuses with 22, then 16.
    #[tactic(auto, unfolding(crate::specs::Control::Calls::opened))]
    pub fn open(feature: &[u8], ranges: Ranges, speeds: TargetSpeeds) -> Reply
        ensures { Says result (opens (opening feature.now ranges speeds)) }
    {
        match Feature::from_octets(feature) {
            Err(why) => refused(closed(), why),
            Ok(value) => {
                let setup = Setup {
                    feature: value,
                    ranges,
                    speeds,
                };
                if setup.is_usable() {
                    return accepted(opened(setup));
                }
                refused(closed(), Refusal::UnusableSetup)
            }
        }
    }

    // The state of a client that is connected; refusals 10, 17.
    fn connected(self, client: u8) -> Result<Client, Refusal>
        ensures { result ≡ connected self client }
    {
        match self.clients.get(client as usize) {
            None => Err(Refusal::ClientAboveThree),
            Some(state) if state.connected => Ok(*state),
            Some(_) => Err(Refusal::ConnectionMismatch),
        }
    }

    // The console with a new state of a client.
    fn with(mut self, client: u8, state: Client) -> Console
        requires { client ≤ 3 }
        ensures { result ≡ with_client self client state }
    {
        self.clients[client as usize] = state;
        self
    }

    // A client connects, with indications off; refusals 10, 17.
    #[tactic(auto, unfolding(crate::specs::Control::Calls::connects))]
    pub fn connect(self, client: u8) -> Reply
        ensures { Says result (connects self client) }
    {
        match self.clients.get(client as usize) {
            None => refused(self, Refusal::ClientAboveThree),
            Some(state) if state.connected => refused(self, Refusal::ConnectionMismatch),
            Some(_) => accepted(self.with(
                client,
                Client {
                    connected: true,
                    indicating: false,
                },
            )),
        }
    }

    // A client disconnects, which frees control that it holds, its indications and its awaited response, and ends the run if it holds control; refusals 10, 17.
    #[tactic(auto, unfolding(crate::specs::Control::Calls::disconnects))]
    pub fn disconnect(self, client: u8) -> Reply
        ensures { Says result (disconnects self client) }
    {
        match self.connected(client) {
            Err(why) => refused(self, why),
            Ok(_) => accepted(Console {
                machine: self.machine.freed(client),
                awaited: without(self.awaited, client),
                ..self.with(client, ABSENT)
            }),
        }
    }

    // A client turns its indications on or off, which leaves an awaited response due; refusals 10, 17.
    #[tactic(auto, unfolding(crate::specs::Control::Calls::indicates))]
    pub fn indicate(self, client: u8, on: bool) -> Reply
        ensures { Says result (indicates self client on) }
    {
        match self.connected(client) {
            Err(why) => refused(self, why),
            Ok(state) => accepted(self.with(
                client,
                Client {
                    indicating: on,
                    ..state
                },
            )),
        }
    }

    // A client confirms the response that is due to it; refusals 10, 17, 21.
    #[tactic(auto, unfolding(crate::specs::Control::Calls::confirms))]
    pub fn confirm(self, client: u8) -> Reply
        ensures { Says result (confirms self client) }
    {
        match self.connected(client) {
            Err(why) => refused(self, why),
            Ok(_) if self.awaited == Some(client) => accepted(Console {
                awaited: None,
                ..self
            }),
            Ok(_) => refused(self, Refusal::NothingDue),
        }
    }

    // A client writes an op code and its parameter; refusals 10, 17, 18, 19, 20. The response awaits confirmation; success may give status octets.
    #[tactic(auto, unfolding(crate::specs::Control::Calls::writes))]
    pub fn write(self, client: u8, octets: &[u8]) -> Reply
        ensures { Says result (writes self client octets.now) }
    {
        let state = match self.connected(client) {
            Ok(state) => state,
            Err(why) => return refused(self, why),
        };
        let Some((op, p)) = octets.split_first() else {
            return refused(self, Refusal::EmptyWrite);
        };
        if !state.indicating {
            return refused(self, Refusal::IndicationsOff);
        }
        if self.awaited.is_some() {
            return refused(self, Refusal::ResponseAwaited);
        }
        self.answer(client, *op, p)
    }

    // The response to a write that is not refused.
    fn answer(self, client: u8, op: u8, p: &[u8]) -> Reply
        ensures { Says result (answers self client op p.now) }
    {
        let performed = perform(self.machine, client, op, p);
        Reply {
            outcome: Ok(()),
            response: performed.response,
            status: performed.status,
            console: Console {
                machine: performed.machine,
                awaited: Some(client),
                ..self
            },
        }
    }

    // A speed of the flywheel leads a run of spin down, and does nothing outside one; no client makes this call, and it is never refused.
    #[tactic(auto, unfolding(crate::specs::Control::Calls::feeds))]
    pub fn flywheel(self, speed: u16) -> Reply
        ensures { Says result (feeds self speed) }
    {
        let machine = self.machine;
        let fed = feed(machine.setup.speeds, machine.run, speed);
        Reply {
            outcome: Ok(()),
            response: Counted::of(&[]),
            status: fed.status,
            console: Console {
                machine: Machine {
                    run: fed.run,
                    ..machine
                },
                ..self
            },
        }
    }

    // The setting that an op code stores, 0 at first; no octets for an op code that stores none.
    pub fn setting(self, op: u8) -> Counted
        ensures { result ≡ boxed (Effects.setting self.machine op) }
    {
        setting(self.machine, op)
    }
}
