//! The program mechdes, over the files and streams of the system.
#![tactic(auto)]

mod files;
mod streams;

use files::FileShelf;
use md_top::mechdes;
use std::alloc::Global;
use std::env::{self, Env};
use std::io::{self, ErrorKind};
use std::process::ExitCode;
use streams::StreamSink;

/// The status of words that the system refuses, and of no memory for them.
const NO_COMMAND: u8 = 64;

const NO_MEMORY: u8 = 72;

fn main(rt: HostRuntime) -> ExitCode {
    let words = match words_after_name(&rt) {
        Ok(words) => words,
        Err(error) if error.kind() == ErrorKind::OutOfMemory => return ExitCode::from(NO_MEMORY),
        Err(_) => return ExitCode::from(NO_COMMAND),
    };
    let mut out = StreamSink::new(rt.stdout());
    let mut err = StreamSink::new(rt.stderr());
    let alloc = rt.alloc();
    let mut shelf = FileShelf::new(rt, alloc);
    ExitCode::from(mechdes(alloc, &words, &mut shelf, &mut out, &mut err))
}

// The words of the call after the program's name.
fn words_after_name<R: Env + AllocGlobal>(rt: &R) -> io::Result<Vec<String>> {
    let mut words = Vec::new(rt.alloc());
    for word in env::args(rt)?.skip(1) {
        words.push(word)?;
    }
    Ok(words)
}
