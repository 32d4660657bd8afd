// What the cases print, and the buffers that are lent.

// The length of every buffer that is lent here; each part that is run is shorter.
pub(crate) const LENT: usize = 64;

// What a lent octet holds until it is written.
pub(crate) const UNTOUCHED: u8 = 0xAA;

// The words for a test, here and in the next: one call for both would be handed the words at each place.
pub(crate) fn yes(test: bool) -> &'static str {
    if test { "yes" } else { "no" }
}

pub(crate) fn unchanged(test: bool) -> &'static str {
    if test { "unchanged" } else { "changed" }
}

// Whether every octet from a position on is as it was lent.
pub(crate) fn is_untouched(buffer: &[u8], from: usize) -> bool {
    buffer.iter().skip(from).all(|x| *x == UNTOUCHED)
}
