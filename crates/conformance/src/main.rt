//! Runs the program over files of cases, and reports each difference from the expected end of a case.
//!
//! The words are the files, and after them maybe `--case NAME`, to run only the cases with that name. It
//! reads all files, and then prints a line for each file, one for each difference, and the two counts at the
//! end. Its status is 0 only if a case was run and nothing differed: the clause of `check_files` says that
//! each case came out as it wants. `docs/internals/CASES.md` says how to write a case.
//!
//! Entry: `main` in `src/main.rt`. Read first: `specs/Files.antt`.
#![tactic(auto)]

mod call;
mod case;
mod check;
mod compare;
mod file;
mod tally;

use crate::check::check_files;
use crate::file::read_files;
use std::process::ExitCode;
use std::rt::{Env, Files};
use std::{env, io};

/// The files to check, and the name of the only cases that are wanted.
#[derive(Clone, Copy)]
struct Request<'a> {
    files: &'a [String],
    only: Option<&'a str>,
}

fn main(rt: HostRuntime) -> io::Result<ExitCode> {
    Ok(ExitCode::from(check_all(&rt)?))
}

fn check_all<R: Env + Files + Print + AllocGlobal>(rt: &R) -> io::Result<u8> {
    let mut words = Vec::new(rt.alloc());
    for word in env::args(rt)?.skip(1) {
        words.push(word)?;
    }
    check_words(rt, words.as_slice())
}

fn check_words<R: Files + Print + AllocGlobal>(rt: &R, words: &[String]) -> io::Result<u8> {
    let request = read_request(words);
    let files = read_files(rt, request.files)?;
    check_files(rt, files.as_slice(), request.only)
}

fn read_request<'a>(words: &'a [String]) -> Request<'a> {
    match words {
        [files @ .., option, name] if option.as_str() == "--case" => Request {
            files,
            only: Some(name.as_str()),
        },
        files => Request { files, only: None },
    }
}
