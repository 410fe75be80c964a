//! The program `joinplan`: plans and runs one SELECT over CSV files.
#![tactic(auto)]

mod answer;
mod checking;
mod faults;
mod reading;
mod refusal;
mod statement;
mod tables;
#[cfg(test)]
mod tests;
mod top;
mod words;

use jp_io::{RealFiles, RealSink};
use std::process::ExitCode;
use std::{env, io};
pub use top::joinplan;

/// The words after the program's name; none where one of them isn't UTF-8.
fn command_words(rt: &HostRuntime) -> io::Result<Vec<String>> {
    let mut words = Vec::new(rt.alloc());
    let args = match env::args(rt) {
        Ok(args) => args,
        Err(error) if error.kind() == io::ErrorKind::OutOfMemory => return Err(error),
        Err(_) => return Ok(words),
    };
    for word in args.skip(1) {
        words.push(word)?;
    }
    Ok(words)
}

fn main(rt: HostRuntime) -> ExitCode {
    let mut files = RealFiles::new(&rt);
    let mut out = RealSink::new(rt.stdout());
    let mut err = RealSink::new(rt.stderr());
    let status = match command_words(&rt) {
        Ok(words) => joinplan(rt.alloc(), words.as_slice(), &mut files, &mut out, &mut err),
        Err(_) => refusal::Refusal::Memory.report(&mut err),
    };
    ExitCode::from(status)
}
