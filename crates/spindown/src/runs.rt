// The runs of the session: each begins at the console that the one before it leaves.
use crate::show::Session;
use std::io;

// What the clients write: an op code and its parameter.
const REQUEST_CONTROL: [u8; 1] = [0x00];

const RESET: [u8; 1] = [0x01];

const START: [u8; 2] = [0x13, 1];

const IGNORE: [u8; 2] = [0x13, 2];

const NEITHER: [u8; 2] = [0x13, 3];

// Client 0 takes control, without which 13 is answered 05.
pub(crate) fn take_control(session: &mut Session<impl Print>) -> io::Result<()> {
    println!(session.rt; "== control")?;
    session.join(0)?;
    session.exchange(0, &REQUEST_CONTROL)?;
    session.state("now")
}

// A run through both targets. The response to the start has low and high. At 2000, the first speed
// at or below high, the console says 4, and does not say it again, although the speed rises above
// high once more; at 1000, the first speed at or below low, it says 2, success, and the run is
// over: the last speed does nothing.
pub(crate) fn coast(session: &mut Session<impl Print>) -> io::Result<()> {
    println!(session.rt; "== a run through both targets")?;
    session.exchange(0, &START)?;
    session.state("now")?;
    session.flywheel(2900)?;
    session.flywheel(2600)?;
    session.flywheel(2300)?;
    session.flywheel(2001)?;
    session.flywheel(2000)?;
    session.state("now")?;
    session.flywheel(1700)?;
    session.flywheel(2200)?;
    session.flywheel(1500)?;
    session.flywheel(1000)?;
    session.state("now")?;
    session.flywheel(900)
}

// Writes that fail in a run leave it: a second start, 04; neither 1 nor 2, 03; an ignore by a
// client that does not hold control, 05; and so does the disconnect of that client.
pub(crate) fn fail(session: &mut Session<impl Print>) -> io::Result<()> {
    println!(session.rt; "== writes that fail in a run")?;
    session.exchange(0, &START)?;
    session.state("now")?;
    session.exchange(0, &START)?;
    session.exchange(0, &NEITHER)?;
    session.join(1)?;
    session.exchange(1, &IGNORE)?;
    session.disconnect(1)?;
    session.state("still")
}

// The run is ignored, so a speed at low does nothing; nor does a second ignore, outside a run.
pub(crate) fn ignore(session: &mut Session<impl Print>) -> io::Result<()> {
    println!(session.rt; "== a run that is ignored")?;
    session.exchange(0, &IGNORE)?;
    session.state("now")?;
    session.flywheel(1000)?;
    session.exchange(0, &IGNORE)?;
    session.state("still")
}

// The first speed of a run is at low: the console says 2, success, at once, and never 4.
pub(crate) fn finish_at_once(session: &mut Session<impl Print>) -> io::Result<()> {
    println!(session.rt; "== a run that succeeds at once")?;
    session.exchange(0, &START)?;
    session.state("now")?;
    session.flywheel(1000)?;
    session.state("now")
}

// A reset ends a run: its status is 01, as always, and nothing is said of the run.
pub(crate) fn reset(session: &mut Session<impl Print>) -> io::Result<()> {
    println!(session.rt; "== a run that a reset ends")?;
    session.exchange(0, &START)?;
    session.state("now")?;
    session.flywheel(1500)?;
    session.state("now")?;
    session.exchange(0, &RESET)?;
    session.state("now")?;
    session.flywheel(900)
}

// The reset has freed control, so client 0 takes it again; when it disconnects, its run is over,
// and nothing is said.
pub(crate) fn leave(session: &mut Session<impl Print>) -> io::Result<()> {
    println!(session.rt; "== a run that the holder's disconnect ends")?;
    session.exchange(0, &REQUEST_CONTROL)?;
    session.state("now")?;
    session.exchange(0, &START)?;
    session.state("now")?;
    session.flywheel(1500)?;
    session.state("now")?;
    session.disconnect(0)?;
    session.state("now")?;
    session.flywheel(900)
}
