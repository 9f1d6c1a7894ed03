//! The line of a box, as far as its fields are decided.
ghost use Rattle.std.specs.Prelude.{◌≡◌, ◌≤◌, ◌+◌, [], ◌∷◌, ◌++◌, length};
ghost use Rattle.std.specs.Fmt.{decimal};

use itoa::Buffer;
use std::marker::Model;

/// As many bytes as a line may have: five times two numbers of ten digits, a dash, and a byte behind.
const ROOM: usize = 110;

/// The text of the intervals so far. It lies where it lies and takes no memory.
#[derive(Drop)]
pub(crate) struct Line {
    bytes: [u8; ROOM],
    filled: usize,
}

impl Model for Line {
    ghost use Rattle.std.specs.Prelude.{ℕ, List, take, ◌≤◌};

    ghost Value = { List ℕ };

    ghost view = { λ line. take line.filled line.bytes };

    ghost invariant = { λ line. line.filled ≤ 110 };
}

impl Line {
    /// The empty line.
    pub fn new() -> Line
        ensures { result ≡ [] }
    {
        Line {
            bytes: [0; ROOM],
            filled: 0,
        }
    }

    /// The line with an interval behind it, and a byte behind that.
    pub fn with(&self, lo: u32, hi: u32, end: u8) -> Line
        requires { length self.now + 22 ≤ 110 }
        ensures text { result ≡ self.now ++ decimal lo ++ 45 ∷ decimal hi ++ end ∷ [] }
        ensures short { length result ≤ length self.now + 22 }
    {
        let mut line = Line {
            bytes: self.bytes,
            filled: self.filled,
        };
        line.put_number(lo);
        line.put(b"-");
        line.put_number(hi);
        line.put(&[end]);
        line
    }

    /// The bytes.
    pub fn bytes(&self) -> &[u8]
        ensures { result.now ≡ self.now }
    {
        &self.bytes[..self.filled]
    }

    /// Puts the number's digits behind the line.
    fn put_number(&mut self, number: u32)
        requires { length self.old + 10 ≤ 110 }
        ensures text { self.new ≡ self.old ++ decimal number }
        ensures short { length self.new ≤ length self.old + 10 }
    {
        let mut digits = Buffer::new();
        self.put(digits.format(number).as_bytes());
    }

    /// Puts the bytes behind the line.
    fn put(&mut self, bytes: &[u8])
        requires { length self.old + length bytes.now ≤ 110 }
        ensures { self.new ≡ self.old ++ bytes.now }
    {
        let end = self.filled + bytes.len();
        self.bytes[self.filled..end].copy_from_slice(bytes);
        self.filled = end;
    }
}
