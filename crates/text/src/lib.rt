// Text in a lent buffer: bytes and decimal numbers written one after another, and decimal numbers read from a line. A writer that runs past the
// buffer's end writes what fits and stops at the end, so a text is surely whole where the place after it is below the buffer's length.
#![tactic(auto)]

ghost use Rattle.std.specs.Prelude.{◌≡◌, true, [], ◌∷◌, ◌+◌, ◌-◌, ◌*◌, ◌≤◌, min, length, drop};
ghost use Rattle.text.specs.Text.{decimal, Wrote, is_gap, is_digit, number_from, word_at, PastGaps};

// What is read in a line from a place on: a number and the place after it, the line's end, or anything else.
#[derive(Clone, Copy)]
pub enum Word {
    Number(usize, usize),
    End,
    Other,
}

// Text written into a lent buffer, from its front on. At the buffer's end the writing stops, so the text is surely whole where it is shorter than the buffer.
#[derive(Drop)]
pub struct Text<'a> {
    out: &'a mut [u8],
    len: usize,
}

impl<'a> Text<'a> {
    // Nothing is written yet.
    pub fn new(out: &'a mut [u8]) -> Text<'a>
        ensures same_buffer { result.out.ghost_name ≡ out.entry.ghost_name }
        ensures buffer { result.out.now ≡ out.old }
        ensures len { result.len ≡ 0 }
    {
        Text { out, len: 0 }
    }

    // How many bytes are written.
    pub fn len(&self) -> usize
        ensures { result ≡ self.now.len }
    {
        self.len
    }

    // One byte.
    pub fn byte(&mut self, byte: u8)
        ensures { Wrote self.old self.new (byte ∷ []) }
    {
        if self.len < self.out.len() {
            self.out[self.len] = byte;
            self.len += 1;
        }
    }

    // The bytes of a slice.
    pub fn bytes(&mut self, bytes: &[u8])
        ensures { Wrote self.old self.new bytes.now }
    {
        for &byte in bytes {
            self.byte(byte);
        }
    }

    // A number in decimal.
    pub fn number(&mut self, number: usize)
        ensures { Wrote self.old self.new (decimal number) }
    {
        if number < 10 {
            self.byte(b'0' + (number as u8));
            return;
        }
        self.number(number / 10);
        self.byte(b'0' + ((number % 10) as u8));
    }
}

// May the byte stand between numbers?
#[tactic(auto, unfolding(crate::specs::Text::is_gap))]
fn is_gap(byte: u8) -> bool
    ensures { result ≡ is_gap byte }
{
    matches!(byte, b' ' | b'/' | b'\t' | b'\r')
}

// The first place from `at` on where no gap stands.
fn past_gaps(line: &[u8], at: usize) -> usize
    ensures { PastGaps line.now at result }
{
    let mut i = at;
    while i < line.len() && is_gap(line[i]) {
        i += 1;
    }
    i
}

// A number with one digit more, at most 65535.
fn with_digit(number: usize, digit: u8) -> usize
    requires { (number ≤ 65535) × (is_digit digit ≡ true) }
    ensures { result ≡ min (number * 10 + (digit - 48)) 65535 }
{
    let longer = number * 10 + usize::from(digit - b'0');
    longer.min(65535)
}

// The number whose digits stand from `at` on.
fn digits_at(line: &[u8], at: usize) -> Word
    ensures { result ≡ number_from 0 (drop at line.now) at }
{
    let mut number = 0;
    let mut i = at;
    while i < line.len() {
        let byte = line[i];
        if !byte.is_ascii_digit() {
            return if is_gap(byte) {
                Word::Number(number, i)
            } else {
                Word::Other
            };
        }
        number = with_digit(number, byte);
        i += 1;
    }
    Word::Number(number, i)
}

// The next word of a line, from a place on.
pub fn number_at(line: &[u8], at: usize) -> Word
    ensures { result ≡ word_at line.now at }
{
    let start = past_gaps(line, at);
    if line.len() <= start {
        return Word::End;
    }
    if line[start].is_ascii_digit() {
        return digits_at(line, start);
    }
    Word::Other
}
