// Spin down: op code 13 starts a run or ignores it, and the speeds of the flywheel lead it.
ghost use Rattle.std.specs.Prelude.{◌≡◌, [], ◌∷◌};
ghost use Rattle.service.specs.Control.Counted.{boxed};
ghost use Rattle.service.specs.Control.SpinDown.{in_order, starts_run, spun_to, said_at, run_at};

use crate::control::counted::Counted;
use crate::control::op_codes::Act;

// The two target speeds of a run, "fixed when the machine is opened".
#[derive(Clone, Copy, Default)]
pub struct TargetSpeeds {
    pub low: u16,
    pub high: u16,
}

// No run, a run that has said nothing yet, or one that has said 4, stop pedalling.
#[derive(Clone, Copy, PartialEq, Eq, Debug)]
pub enum Run {
    Off,
    Quiet,
    Warned,
}

// What a speed gives: the status octets, and the run after it.
#[derive(Clone, Copy)]
pub(crate) struct Fed {
    pub status: Counted,
    pub run: Run,
}

impl TargetSpeeds {
    // Whether low is below high; refusal 16 if it is not.
    pub(crate) fn are_in_order(self) -> bool
        ensures { result ≡ in_order self }
    {
        self.low < self.high
    }
}

// Whether an op code with this parameter starts a run: "parameter 1 starts".
pub(crate) fn starts_run(act: Act, x: u8) -> bool
    ensures { result ≡ starts_run act x }
{
    act == Act::SpinsDown && x == 1
}

// The run after a parameter of 13: "parameter 1 starts, 2 ignores".
pub(crate) fn spun(x: u8) -> Run
    ensures { result ≡ spun_to x }
{
    if x == 1 {
        return Run::Quiet;
    }
    Run::Off
}

// A speed at which nothing is said.
fn silent(run: Run) -> Fed
    ensures { result ≡ record { status = boxed []; run = run } }
{
    Fed {
        status: Counted::of(&[]),
        run,
    }
}

// A speed at which 14 and this value are said.
fn saying(value: u8, run: Run) -> Fed
    ensures { result ≡ record { status = boxed (0x14 ∷ value ∷ []); run = run } }
{
    Fed {
        status: Counted::of(&[0x14, value]),
        run,
    }
}

// A speed of the flywheel, whether there is a run or not: "Outside a run a speed does nothing"; a run says 4 once.
pub(crate) fn feed(speeds: TargetSpeeds, run: Run, speed: u16) -> Fed
    ensures { result ≡ record { status = boxed (said_at speeds run speed); run = run_at speeds run speed } }
{
    match run {
        Run::Off => silent(Run::Off),
        _ if speed <= speeds.low => saying(2, Run::Off),
        Run::Quiet if speed <= speeds.high => saying(4, Run::Warned),
        Run::Quiet | Run::Warned => silent(run),
    }
}
