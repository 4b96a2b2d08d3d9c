// Standard output, until a write fails: that failure is kept, and nothing is written behind it.
ghost use Rattle.std.specs.Prelude.{◌≡◌, Ok, OnErr};

use std::fmt::Display;
use std::io;
use std::io::{Stdout, Write};

#[derive(Drop)]
pub struct Output {
    to: Stdout,
    so_far: io::Result<()>,
}

impl Output {
    pub fn new(to: Stdout) -> Output
        ensures { (result.to ≡ to) × (result.so_far ≡ Ok tt) }
    {
        Output { to, so_far: Ok(()) }
    }

    // Bytes as they are.
    pub fn write(&mut self, bytes: &[u8])
        ensures { OnErr self.old.so_far (self.new ≡ self.old) }
    {
        if self.so_far.is_ok() {
            self.so_far = self.to.write_all(bytes);
        }
    }

    pub fn print<D: Display + Drop>(&mut self, text: D)
        ensures { OnErr self.old.so_far (self.new ≡ self.old) }
    {
        if self.so_far.is_ok() {
            self.so_far = write!(self.to, "{text}");
        }
    }

    // The failure, if there was one.
    pub fn finish(self) -> io::Result<()>
        ensures { result ≡ self.so_far }
    {
        self.so_far
    }
}
