// A line of a script: a word in small letters, and octets as pairs of hex digits in capitals; anything else is skipped.
use arrayvec::ArrayVec;
use record::octets::u16_at;

// The most characters of a line that are read, and the most octets that its digits can give.
pub(crate) const LONGEST: usize = 4096;

const MOST_OCTETS: usize = 1024;

// The word of a line, with the space after it.
pub(crate) fn word_of(line: &[u8]) -> &[u8] {
    line.split_inclusive(|x| *x == b' ').next().unwrap_or(line)
}

// The value of a hex digit; none for anything else.
fn value(x: u8) -> Option<u8> {
    match x {
        b'0'..=b'9' => Some(x - b'0'),
        b'A'..=b'F' => Some(x - b'A' + 10),
        _ => None,
    }
}

// The octets of a line; those past `MOST_OCTETS` are left out, and so is a digit with no other after it.
pub(crate) fn octets_of(line: &[u8]) -> ArrayVec<u8, MOST_OCTETS> {
    let mut octets = ArrayVec::new();
    let mut high = None;
    for low in line.iter().filter_map(|x| value(*x)) {
        match high.take() {
            None => high = Some(low),
            Some(high) => {
                let _ = octets.try_push(high << 4 | low);
            }
        }
    }
    octets
}

// A number of four octets, least first.
pub(crate) fn u32_at(s: &[u8], at: u8) -> u32 {
    let low = usize::from(at);
    u32::from(u16_at(s, low)) + 65536 * u32::from(u16_at(s, low + 2))
}
