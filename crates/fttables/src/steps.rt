// What the steps of the calls share: a thing is wrong before the step that puts it right.

// A thing that is wrong before a step, and right from that step on.
pub(crate) fn mended<T: Drop>(step: u8, from: u8, wrong: T, right: T) -> T {
    if step < from { wrong } else { right }
}

// A notification's length: too long before a step, then shorter than its flags, then its flags
// alone, then enough for a group: a length by the step's number, and no step that is run.
pub(crate) fn length_at(step: u8, from: u8) -> u16 {
    match step.checked_sub(from) {
        None => 513,
        Some(0) => 1,
        Some(1) => 2,
        Some(_) => 6,
    }
}
