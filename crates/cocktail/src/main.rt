//! The program `cocktail`: the top call on the words of the command line, the files of the disk and
//! the two standard streams.
#![tactic(auto)]

use ck_io::{DiskFiles, StdSink};
use ck_tool::cocktail as run;
use std::process::ExitCode;
use std::{env, io};

/// The exit status where no memory is found for the words.
const NO_MEMORY: u8 = 9;

/// The words behind the program's name.
fn words_of(rt: &HostRuntime) -> io::Result<Vec<String>> {
    let mut words = Vec::new(rt.alloc());
    let mut args = env::args(rt)?;
    let _name = args.next();
    for word in args {
        words.push(word)?;
    }
    Ok(words)
}

fn main(rt: HostRuntime) -> ExitCode {
    let words = match words_of(&rt) {
        Ok(words) => words,
        Err(fault) if fault.kind() == io::ErrorKind::OutOfMemory => return ExitCode::from(
            NO_MEMORY,
        ),
        // A word that isn't UTF-8 makes the words wrong ones.
        Err(_) => Vec::new(rt.alloc()),
    };
    let mut files = DiskFiles::new(&rt);
    let mut out = StdSink::new(rt.stdout());
    let mut err = StdSink::new(rt.stderr());
    let status = run(rt.alloc(), &words, &mut files, &mut out, &mut err);
    ExitCode::from(status.code())
}
