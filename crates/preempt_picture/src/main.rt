//! The program `preempt_picture`: its words without its own name, files under the current folder, the standard output and error.
#![tactic(auto)]

use pre_base::{DirShelf, ErrSink, Failed, Sink, StdSink, write_all};
use pre_cli::Status;
use pre_draw::{preempt_picture, put_picture_status};
use std::alloc::{AllocError, Global};
use std::env;
use std::io::ErrorKind;
use std::process::ExitCode;
use std::rt::{Env, Files};

/// The words behind the program's name. Where one isn't text, none can be read, and the words are wrong.
fn words_of<R: Env + AllocGlobal>(rt: &R) -> Result<Vec<String>, Status> {
    match env::args(rt) {
        Ok(args) => kept(rt.alloc(), args).map_err(|_| Status::Memory),
        Err(error) if error.kind() == ErrorKind::OutOfMemory => Err(Status::Memory),
        Err(_) => Err(Status::Words),
    }
}

fn kept(alloc: Global, args: env::Args) -> Result<Vec<String>, AllocError> {
    let mut words = Vec::new(alloc);
    for word in args.skip(1) {
        words.push(word)?;
    }
    Ok(words)
}

/// Writes the text of a status and the end of the line, and nothing for Done.
fn report<R: Eprint>(rt: &R, status: &Status) -> Result<(), Failed> {
    if let Status::Done = status {
        return Ok(());
    }
    let mut sink = ErrSink::over(rt);
    put_picture_status(status, &mut sink)?;
    write_all(&mut sink, b"\n")
}

fn answer<R: Env + AllocGlobal + Files + Print>(rt: &R) -> Status {
    match words_of(rt) {
        Ok(words) => {
            let mut shelf = DirShelf::over(rt);
            let mut sink = StdSink::over(rt);
            let status = preempt_picture(rt.alloc(), words.as_slice(), &mut shelf, &mut sink);
            // The front of a text that was cut short: on Done all is flushed already.
            let _ = sink.flush();
            status
        }
        Err(status) => status,
    }
}

fn main(rt: HostRuntime) -> ExitCode {
    let status = answer(&rt);
    let _ = report(&rt, &status);
    ExitCode::from(status.number())
}
