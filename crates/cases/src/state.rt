// What the calls of a text leave, a line printed for each: the call, or its label behind #, and the answer. Lines that begin with # are comments.
ghost use Rattle.std.specs.Prelude.{◌≡◌, ◌≤◌, ◌++◌, length, take, drop};
ghost use Rattle.cases.specs.Words.{lines_of};
ghost use Rattle.cases.specs.Calls.{used_after, bytes_after, held, started, state_after, state_by, state_on, state_of};

use crate::calls::{Call, call_named, used_after};
use crate::fields::{Fields, fields_of};
use crate::numbers::at_most;
use crate::output::Output;
use crate::words::{first, lines};

pub const BUFFER_SIZE: usize = 65584;

// A lent buffer, how many bytes of it are the archive, and how many of these are used.
#[derive(Drop)]
struct State<'a> {
    buffer: &'a mut [u8; BUFFER_SIZE],
    size: u64,
    used: u64,
}

impl<'a> State<'a> {
    // Fills the buffer with sevens.
    fn new(buffer: &'a mut [u8; BUFFER_SIZE]) -> State<'a>
        ensures { (held result ≡ started) × (result.buffer.ghost_name ≡ buffer.entry.ghost_name) }
    {
        *buffer = [7; BUFFER_SIZE];
        State {
            buffer,
            size: 0,
            used: 0,
        }
    }

    fn call(&mut self, output: &mut Output, call: Call, fields: &Fields)
        ensures { (held self.new ≡ state_after call fields.now (held self.old)) × (self.new.buffer.ghost_name ≡ self.old.buffer.ghost_name) }
    {
        if call == Call::Empty {
            self.size = fields.number;
        }
        self.used = used_in_buffer(output, call, fields, self.buffer, self.size, self.used);
    }

    // A call's name and the words behind it.
    fn call_by(&mut self, output: &mut Output, text: &[u8])
        ensures { (held self.new ≡ state_by text.now (held self.old)) × (self.new.buffer.ghost_name ≡ self.old.buffer.ghost_name) }
    {
        let gap = first(text, b' ');
        let start = (gap + 1).min(text.len());
        let Some(fields) = fields_of(&text[start..]) else {
            output.print(": malformed");
            return;
        };
        let Some(call) = call_named(&text[..gap]) else {
            output.print(": no such call");
            return;
        };
        self.call(output, call, &fields);
    }

    fn line(&mut self, output: &mut Output, text: &[u8])
        ensures { (held self.new ≡ state_on text.now (held self.old)) × (self.new.buffer.ghost_name ≡ self.old.buffer.ghost_name) }
    {
        let sign = first(text, b'#');
        if sign == 0 {
            return;
        }
        print_name(output, text, sign);
        self.call_by(output, &text[..sign]);
        output.print("\n");
    }

    fn run(&mut self, output: &mut Output, text: &[u8])
        ensures { (held self.new ≡ state_of (lines_of text.now) (held self.old)) × (self.new.buffer.ghost_name ≡ self.old.buffer.ghost_name) }
    {
        for line in lines(text) {
            self.line(output, line);
        }
    }
}

// Over a lent buffer, whatever was in it.
pub fn run(output: &mut Output, text: &[u8], buffer: &mut [u8; BUFFER_SIZE])
    ensures { buffer.new ≡ (state_of (lines_of text.now) started).buffer }
{
    State::new(buffer).run(output, text);
}

// The used length after a call on the archive, which stands in front in the buffer.
fn used_in_buffer(
    output: &mut Output,
    call: Call,
    fields: &Fields,
    buffer: &mut [u8; BUFFER_SIZE],
    size: u64,
    used: u64,
) -> u64
    ensures { (result ≡ used_after call fields.now (take size buffer.old) used) × (buffer.new ≡ bytes_after call fields.now (take size buffer.old) used ++ drop size buffer.old) }
{
    let n = at_most(size, buffer.len());
    used_after(output, call, fields, &mut buffer[..n], used)
}

// What is printed of a line in front of the answer: the label, where there is one.
fn print_name(output: &mut Output, text: &[u8], sign: usize)
    requires { sign ≤ length text.now }
{
    if sign == text.len() {
        output.write(text);
        return;
    }
    output.write(&text[(sign + 2).min(text.len())..]);
}
