// The desk reads a member's stream from standard input and prints every record of it in clear.
#![tactic(auto)]

mod arguments;
mod listing;

use arguments::{Request, parse};
use listing::list;
use std::env;
use std::io::Read;
use std::process::ExitCode;

fn main(rt: HostRuntime) -> ExitCode {
    match run(&rt) {
        Ok(()) => ExitCode::SUCCESS,
        Err(error) => {
            let _ = eprintln!(rt; "desk: {error}");
            ExitCode::FAILURE
        }
    }
}

fn run(rt: &HostRuntime) -> anyhow::Result<()> {
    let words: Vec<String> = env::args(rt)?.skip(1).collect(rt.alloc())?;
    match parse(words.as_slice())? {
        Request::Help => rt.print(arguments::HELP)?,
        Request::Listing => {
            let mut input = Vec::new(rt.alloc());
            rt.stdin().read_to_end(&mut input)?;
            list(rt, input.as_slice())?;
        }
    }
    Ok(())
}

#[cfg(test)]
mod tests;
