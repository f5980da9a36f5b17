// The line that is put together byte by byte, in memory of its own. A clause sees the bytes that it has.
ghost use Rattle.std.specs.Prelude.{◌≡◌, ◌≤◌, cond, List, [], ◌∷◌, ◌++◌, ℕ, ltb, length, take};

use std::marker::Model;

#[derive(Drop)]
pub struct Line {
    bytes: [u8; 4096],
    held: usize,
}

impl Model for Line {
    ghost Value = { List ℕ };

    ghost view = { λ l. take l.held l.bytes };

    ghost invariant = { λ l. l.held ≤ 4096 };
}

impl Line {
    // A line without a byte.
    pub fn new() -> Line
        ensures { result ≡ [] }
    {
        Line {
            bytes: [0; 4096],
            held: 0,
        }
    }

    // Its bytes.
    pub fn text(&self) -> &[u8]
        ensures { result.now ≡ self.now }
    {
        &self.bytes[..self.held]
    }

    // Puts a byte behind its bytes, if there is room for it.
    pub fn push(&mut self, byte: u8) -> bool
        ensures room { result ≡ ltb (length self.old) 4096 }
        ensures bytes { self.new ≡ cond result (self.old ++ (byte ∷ [])) self.old }
    {
        if self.held < self.bytes.len() {
            self.bytes[self.held] = byte;
            self.held += 1;
            return true;
        }
        false
    }

    // Drops its bytes.
    pub fn clear(&mut self)
        ensures { self.new ≡ [] }
    {
        self.held = 0;
    }
}
