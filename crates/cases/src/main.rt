// Calls read as text from standard input, as the command takes them, and their answers printed.
#![tactic(auto)]

mod calls;
mod fields;
mod lists;
mod numbers;
mod output;
mod state;
mod words;

use output::Output;
use state::{BUFFER_SIZE, run};
use std::io;
use std::io::Read;

// The most bytes of the text that are read.
const MOST_TEXT: u64 = 65536;

fn main(rt: HostRuntime) -> io::Result<()> {
    let mut text = Vec::new(rt.alloc());
    rt.stdin().take(MOST_TEXT).read_to_end(&mut text)?;
    let mut output = Output::new(rt.stdout());
    let mut buffer = [0; BUFFER_SIZE];
    run(&mut output, &text, &mut buffer);
    output.finish()
}
