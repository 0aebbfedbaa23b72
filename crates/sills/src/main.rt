// Fills the hollows of a sheet: reads it as text from standard input, and prints the filled sheet, or why it is refused.
#![tactic(auto)]

use answers::{MOST_BYTES, answer};
use std::io;
use std::io::{Read, Write};
use std::process::ExitCode;

// The input's bytes, or enough of them to see that there are too many.
fn read_input(rt: &HostRuntime) -> io::Result<Vec<u8>> {
    let mut bytes = Vec::new(rt.alloc());
    let most = MOST_BYTES as u64 + 1;
    rt.stdin().take(most).read_to_end(&mut bytes)?;
    Ok(bytes)
}

fn main(rt: HostRuntime) -> anyhow::Result<ExitCode> {
    let bytes = read_input(&rt)?;
    match answer(rt.alloc(), bytes.as_slice()) {
        Ok(text) => {
            rt.stdout().write_all(text.as_slice())?;
            Ok(ExitCode::SUCCESS)
        }
        Err(refusal) => {
            println!(rt; "{refusal}")?;
            Ok(ExitCode::FAILURE)
        }
    }
}
