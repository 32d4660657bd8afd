// What a machine does, and how far a run of spin down is, as the programs print them.
use service::control::machine::Mode;
use service::control::spin_down::Run;
use std::fmt;

// Whether a machine is stopped, running or paused.
#[derive(Clone, Copy)]
pub struct ModeWords(pub Mode);

impl fmt::Display for ModeWords {
    fn fmt<W: fmt::Write>(&self, f: &mut fmt::Formatter<W>) -> fmt::Result {
        match self.0 {
            Mode::Stopped => write!(f, "stopped"),
            Mode::Running => write!(f, "running"),
            Mode::Paused => write!(f, "paused"),
        }
    }
}

// Whether there is a run, and what it has said.
#[derive(Clone, Copy)]
pub struct RunWords(pub Run);

impl fmt::Display for RunWords {
    fn fmt<W: fmt::Write>(&self, f: &mut fmt::Formatter<W>) -> fmt::Result {
        match self.0 {
            Run::Off => write!(f, "no run"),
            Run::Quiet => write!(f, "a run that has said nothing"),
            Run::Warned => write!(f, "a run that has said 4"),
        }
    }
}
