//! The program `avgraph`: its words, the real files and the status.
#![tactic(auto)]

use av_base::NoMemory;
use av_host::RealHost;
use avgraph::{OpenGate, avgraph};
use std::alloc::Global;
use std::process::ExitCode;
use std::{env, io};

/// The size of the block that is freed at the start: 31 MiB, which is below the C library's limit with its header.
const FREED_BLOCK: usize = 31 << 20;

/// The only word of a command line that isn't UTF-8, so that its fault is `UnknownWord word=0`.
const NO_TEXT: &str = "-";

/// Runs the command that the words after the program's name give. They are had as text all or none.
fn main(rt: HostRuntime) -> ExitCode {
    let alloc = rt.alloc();
    let words: Vec<String> = match env::args(&rt) {
        Ok(args) => match args.skip(1).collect(alloc) {
            Ok(words) => words,
            Err(_) => return no_memory(&rt),
        },
        Err(error) if error.kind() == io::ErrorKind::OutOfMemory => return no_memory(&rt),
        Err(_) => match unknown_word(alloc) {
            Ok(words) => words,
            Err(_) => return no_memory(&rt),
        },
    };
    keep_freed_memory(alloc);
    let mut host = RealHost::new(&rt, alloc);
    ExitCode::from(avgraph(&rt, alloc, &words, &mut host, &OpenGate))
}

/// The words in place of some that aren't UTF-8.
fn unknown_word(alloc: Global) -> Result<Vec<String>, NoMemory> {
    let word = String::from_str(alloc, NO_TEXT)?;
    Ok(vec![in alloc; word]?)
}

/// Has the C library keep the memory of planes that are given back, for the planes of the next picture. It keeps up to twice
/// the size of the largest block that it unmapped so far, and counts blocks of up to 32 MiB. So one such block is allocated
/// and freed, and no page of it is touched. Out of memory, nothing changes but the speed.
fn keep_freed_memory(alloc: Global) {
    let _block: Result<Vec<u8>, _> = Vec::with_capacity(alloc, FREED_BLOCK);
}

/// There was no memory for the words.
fn no_memory(rt: &impl Print) -> ExitCode {
    let _ = println!(rt; "avgraph: NoMemory");
    ExitCode::from(14)
}
