// Where a listing goes: its bytes are counted, or written into a lent buffer.
ghost use Rattle.std.specs.Prelude.{◌≡◌, List, ℕ, length};
ghost use Rattle.listing.specs.Decimal.{decimal};
ghost use Rattle.listing.specs.Sink.{SinkLaws, counted, count_takes, written, buffer_takes};
ghost use Rattle.listing.specs.SinkLaws.{count_laws, buffer_laws};

use crate::decimal::{decimal_length, put_decimal};
use octets::put_bytes;

pub trait Sink {
    // What a sink is after some bytes more.
    ghost after: { Self → List ℕ → Self };

    // Whether it takes n bytes more.
    ghost takes: { Self → ℕ → Type 0 };

    // Puts bytes behind those before.
    fn put(&mut self, bytes: &[u8])
        requires { takes self.old (length bytes.now) }
        ensures { self.new ≡ after self.old bytes.now };

    // Puts a number: its digits are counted, or written in their place, and never copied.
    fn put_decimal(&mut self, x: u64)
        requires { takes self.old (length (decimal x)) }
        ensures { self.new ≡ after self.old (decimal x) };

    // What each sink must prove.
    ghost laws: { SinkLaws after takes };
}

// How many bytes there were.
#[derive(Clone, Copy)]
pub struct Count {
    pub bytes: usize,
}

impl Sink for Count {
    ghost after = { counted };

    ghost takes = { count_takes };

    ghost laws = { count_laws };

    fn put(&mut self, bytes: &[u8])
        requires { count_takes self.old (length bytes.now) }
        ensures { self.new ≡ counted self.old bytes.now }
    {
        self.bytes += bytes.len();
    }

    fn put_decimal(&mut self, x: u64)
        requires { count_takes self.old (length (decimal x)) }
        ensures { self.new ≡ counted self.old (decimal x) }
    {
        self.bytes += decimal_length(x);
    }
}

// A lent buffer, and the place in it behind what is written.
#[derive(Drop)]
pub struct Buffer<'a> {
    pub out: &'a mut [u8],
    pub at: usize,
}

impl<'a> Sink for Buffer<'a> {
    ghost after = { written };

    ghost takes = { buffer_takes };

    ghost laws = { buffer_laws };

    fn put(&mut self, bytes: &[u8])
        requires { buffer_takes self.old (length bytes.now) }
        ensures { self.new ≡ written self.old bytes.now }
    {
        put_bytes(self.out, self.at, bytes);
        self.at += bytes.len();
    }

    fn put_decimal(&mut self, x: u64)
        requires { buffer_takes self.old (length (decimal x)) }
        ensures { self.new ≡ written self.old (decimal x) }
    {
        self.at = put_decimal(self.out, self.at, x);
    }
}
