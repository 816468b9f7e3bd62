//! The program `lincheck`: `lincheck::execute` over the files of the system and its streams.
#![tactic(auto)]

mod certified;
mod given;
mod objects;
mod output;

use certified::certified;
use given::{Given, Put, words_of};
use lincheck::{COMMAND_LINE_FAULT, Disk, OUT_OF_MEMORY, SUCCESS, execute};
use objects::write_objects;
use output::{print_whole, put_answer, put_certificate};
use std::io;
use std::io::{ErrorKind, Write};
use std::process::ExitCode;

fn main(rt: HostRuntime) -> ExitCode {
    let given = match words_of(&rt) {
        Ok(given) => given,
        Err(error) => return ExitCode::from(words_are_no_text(&rt, &error)),
    };
    let words = given.words.as_slice();
    let mut files = Disk::new(&rt);
    if given.is_json {
        let mut out = Vec::new(rt.alloc());
        let mut said = Vec::new(rt.alloc());
        let mut found = Vec::new(rt.alloc());
        let status = execute(&rt, rt.alloc(), words, &mut files, &mut out, &mut said);
        let status = certified(&rt, rt.alloc(), &given, status, &out, &mut found, &mut said);
        return ExitCode::from(put_objects(&rt, &given, status, &out, &found, said));
    }
    let mut err = rt.stderr();
    if given.put.is_none() {
        let mut out = rt.stdout();
        let status = execute(&rt, rt.alloc(), words, &mut files, &mut out, &mut err);
        return ExitCode::from(status);
    }
    let mut out = Vec::new(rt.alloc());
    let mut found = Vec::new(rt.alloc());
    let status = execute(&rt, rt.alloc(), words, &mut files, &mut out, &mut err);
    let status = certified(&rt, rt.alloc(), &given, status, &out, &mut found, &mut err);
    ExitCode::from(put(&rt, &given, status, &out, &found, &mut err))
}

/// Puts the answer of this status, or the certificate that was found for it, into the file that is named, and prints the answer if it is not put there;
/// returns the status.
fn put<E: Write>(
    rt: &HostRuntime,
    given: &Given,
    status: u8,
    out: &[u8],
    found: &[u8],
    err: &mut E,
) -> u8 {
    match &given.put {
        Some(Put::Answer(path)) => put_answer(rt, path.as_str(), status, out, err),
        Some(Put::Certificate(path)) => {
            let printed = print_whole(rt, status, out, err);
            if printed == SUCCESS {
                put_certificate(rt, path.as_str(), found, err)
            } else {
                printed
            }
        }
        None => print_whole(rt, status, out, err),
    }
}

/// Puts what is to be put into a file there, and prints the rest; says on standard error by objects what is to be said; and returns the
/// status.
fn put_objects(
    rt: &HostRuntime,
    given: &Given,
    status: u8,
    out: &[u8],
    found: &[u8],
    said: Vec<u8>,
) -> u8 {
    let mut said = said;
    let status = put(rt, given, status, out, found, &mut said);
    write_objects(rt.alloc(), status, out, &said, &mut rt.stderr());
    status
}

// The words of the command line could not be had.
fn words_are_no_text(rt: &HostRuntime, error: &io::Error) -> u8 {
    let _ = eprintln!(rt; "lincheck: {error}");
    if error.kind() == ErrorKind::OutOfMemory {
        OUT_OF_MEMORY
    } else {
        COMMAND_LINE_FAULT
    }
}
