// Cases in lines of text: words, a colon, and the octets of the notifications in hexadecimal digits, with `/` between two.
use output::first;

// The words of a line, and the text of its notifications.
pub(crate) fn words_of(line: &str) -> (&str, &str) {
    line.split_once(':').unwrap_or((line, ""))
}

// The octets that a text gives, in the lent ones; none has more than 32.
pub(crate) fn octets_of<'a>(text: &str, space: &'a mut [u8; 32]) -> &'a [u8] {
    for (octet, digits) in space.iter_mut().zip(text.split_whitespace()) {
        *octet = u8::from_str_radix(digits, 16).unwrap_or(0);
    }
    first(space, text.split_whitespace().count())
}
