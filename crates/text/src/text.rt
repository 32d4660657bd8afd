// Writing text into a lent buffer. What lies past the buffer's end is left out but counted, so the same calls also measure a text; `write!` would
// stop at the end.
#![tactic(auto, using(crate::proofs::Writing::writes))]

ghost use Rattle.std.specs.Prelude.{◌≡◌, ◌≤◌, ◌+◌, ◌%◌, [], ◌∷◌, take};
ghost use Rattle.text.specs.Text.{top, decimal, hex_digit, hex, line};

// The octet that ends a line.
pub const LF: u8 = 10;

// A lent buffer, and the position of the next octet in it; the position saturates at the largest usize. That it is a usize is a field, so that proofs see it.
#[derive(Drop)]
pub struct Sheet<'a> {
    pub out: &'a mut [u8],
    pub at: usize,
    ghost within: { at ≤ top },
}

// The last digit of n.
fn digit(n: u32) -> u8
    ensures { result ≡ 48 + n % 10 }
{
    48 + (n % 10) as u8
}

// A hexadecimal digit, in capitals.
fn hex_digit(n: u8) -> u8
    ensures { result ≡ hex_digit n }
{
    let d = n % 16;
    if d < 10 {
        return 48 + d;
    }
    55 + d
}

impl<'a> Sheet<'a> {
    // A sheet at the beginning of a buffer.
    pub fn new(out: &'a mut [u8]) -> Sheet<'a>
        ensures same_reference { result.out.ghost_name ≡ out.entry.ghost_name }
        ensures octets { result.out.now ≡ out.old }
        ensures position { result.at ≡ 0 }
    {
        Sheet { out, at: 0 }
    }
}

impl Sheet<'_> {
    ghost use Rattle.text.specs.Sheet.{Put};

    // What was written so far, as far as the buffer goes.
    pub fn as_bytes(&self) -> &[u8]
        ensures { result.now ≡ take self.now.at self.now.out.now }
    {
        if self.out.len() < self.at {
            return self.out;
        }
        &self.out[..self.at]
    }

    pub fn put_byte(&mut self, b: u8)
        ensures { Put self.old (b ∷ []) self.new }
    {
        let at = self.at;
        if at < self.out.len() {
            self.out[at] = b;
        }
        self.at = at.saturating_add(1);
    }

    pub fn put_bytes(&mut self, text: &[u8])
        ensures { Put self.old text.now self.new }
    {
        for b in text {
            self.put_byte(*b);
        }
    }

    // A number in decimal, with no leading zeros.
    #[tactic(auto, using(crate::proofs::Writing::one_digit))]
    pub fn put_decimal(&mut self, n: u32)
        ensures { Put self.old (decimal n) self.new }
    {
        if n < 10 {
            return self.put_byte(digit(n));
        }
        self.put_decimal(n / 10);
        self.put_byte(digit(n));
    }

    // An octet as two hexadecimal digits.
    #[tactic(auto, using(crate::proofs::Writing::writes), unfolding(crate::specs::Text::hex))]
    pub fn put_hex(&mut self, b: u8)
        ensures { Put self.old (hex b) self.new }
    {
        self.put_byte(hex_digit(b / 16));
        self.put_byte(hex_digit(b));
    }

    // A line: a key, a number, LF.
    #[tactic(auto, using(crate::proofs::Writing::writes), unfolding(crate::specs::Text::line))]
    pub fn put_line(&mut self, key: &[u8], n: u32)
        ensures { Put self.old (line key.now (decimal n)) self.new }
    {
        self.put_bytes(key);
        self.put_decimal(n);
        self.put_byte(LF);
    }
}
