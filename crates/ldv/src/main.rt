//! The program: it makes the streams of the process and calls `ldv_main`.
//!
//! Its few lines and the streams of `ldv_io` are the trusted edge: no clause says which bytes standard input
//! gave and which bytes the system took.
//!
//! Entry: `main` in `src/main.rt`. Read first: `specs/Ends.antt` of `ldv_top`.
#![tactic(auto)]

use ldv_io::{StdSink, StdSource, write_all};
use ldv_top::{Exit, ldv_main, status};
use std::alloc::Global;
use std::env;
use std::io::ErrorKind;
use std::process::ExitCode;

/// The status if the system didn't give the words of the command line.
const NO_WORDS: u8 = 17;

fn main(rt: HostRuntime) -> ExitCode {
    let alloc: Global = rt.alloc();
    let mut errors = StdSink::new(rt.stderr());
    let words = match env::args(&rt) {
        Ok(args) => args,
        Err(error) => {
            if error.kind() == ErrorKind::OutOfMemory {
                let _ = write_all(&mut errors, b"ldv: out of memory\n");
                return ExitCode::from(status(&Exit::NoMemory));
            }
            let _ = write_all(&mut errors, b"ldv: no words\n");
            return ExitCode::from(NO_WORDS);
        }
    };
    let mut all = Vec::new(alloc);
    for word in words.skip(1) {
        if all.push(word).is_err() {
            let _ = write_all(&mut errors, b"ldv: out of memory\n");
            return ExitCode::from(status(&Exit::NoMemory));
        }
    }
    let mut source = StdSource::new(rt.stdin());
    let mut sink = StdSink::new(rt.stdout());
    ExitCode::from(ldv_main(alloc, &all, &mut source, &mut sink, &mut errors))
}
