// A line of an input in a buffer of its own. Of a line that is longer than the buffer it is known only that it is too long; its front stands in the buffer all the same, so
// that the line can be named.
ghost use Rattle.std.specs.Prelude.{◌≡◌, ◌↔◌, ◌≤◌, IsTrue, ℕ, List, [], Option, Some, take, IfSome};
ghost use Rattle.std.specs.Option.{ForSome, option_map};
ghost use Rattle.inputs.specs.Lines.{blanked, put_within, text_of};

use std::marker::Model;

// Seen as the bytes put in, or as `None` where they are too many.
#[derive(Drop)]
pub struct Line<const N: usize> {
    bytes: [u8; N],
    len: Option<usize>,
}

impl<const N: usize> Model for Line<N> {
    ghost Value = { Option (List ℕ) };

    ghost view = { λ l. option_map (λ n. take n l.bytes) l.len };

    ghost invariant = { λ l. ForSome l.len (λ n. n ≤ N) };
}

impl<const N: usize> Line<N> {
    // A line that has no byte yet.
    pub fn new() -> Line<N>
        ensures { result ≡ Some [] }
    {
        Line {
            bytes: [0; N],
            len: Some(0),
        }
    }

    // Is no byte in?
    pub fn is_empty(&self) -> bool
        ensures { IsTrue result ↔ (self.now ≡ Some []) }
    {
        self.len == Some(0)
    }

    // Takes the bytes out again.
    pub fn clear(&mut self)
        ensures { self.new ≡ Some [] }
    {
        self.len = Some(0);
    }

    // Makes each byte that is in a 0.
    pub fn blank(&mut self)
        ensures { self.new ≡ blanked self.old }
    {
        self.bytes.fill(0);
    }

    // Puts a byte behind those that are in.
    pub fn put(&mut self, byte: u8)
        ensures { self.new ≡ put_within N self.old byte }
    {
        match self.len {
            Some(len) if len < N => {
                self.bytes[len] = byte;
                self.len = Some(len + 1);
            }
            _ => self.len = None,
        }
    }

    // The line, where it is not too long.
    pub fn text(&self) -> Option<&[u8]>
        ensures { text_of result ≡ self.now }
    {
        let len = self.len?;
        Some(&self.bytes[..len])
    }

    // The line as far as it fits.
    pub fn front(&self) -> &[u8]
        ensures { IfSome self.now (λ text. result.now ≡ text) }
    {
        match self.len {
            Some(len) => &self.bytes[..len],
            None => &self.bytes,
        }
    }
}
