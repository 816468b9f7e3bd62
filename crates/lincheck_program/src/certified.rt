//! A certificate of what `complete` answers, which is put into a file: `--certificate FILE`.
use crate::given::{Given, Put};
use lincheck::{Files, OUT_OF_MEMORY, SUCCESS, execute};
use std::alloc::{AllocError, Global};
use std::io;
use std::io::Write;
use std::sync::Wait;
use std::thread::Threads;

/// A file with this text at each path.
#[derive(Drop)]
struct Printed<'a> {
    text: &'a [u8],
}

impl<'a> Files for Printed<'a> {
    type Reader = &'a [u8];

    fn open(&mut self, _path: &str) -> io::Result<&'a [u8]> {
        Ok(self.text)
    }
}

/// The words of `prove` for what is opened.
fn proving(alloc: Global) -> Result<Vec<String>, AllocError> {
    let mut words = Vec::new(alloc);
    for word in ["lincheck", "prove", "-"] {
        words.push(String::from_str(alloc, word)?)?;
    }
    Ok(words)
}

/// Finds a certificate of the development that was answered with this status, if it is whole and one is to be put into a file. Returns the
/// status: that of `prove` if it was asked.
pub fn certified<R: Threads + Wait + Sync, E: Write>(
    rt: &R,
    alloc: Global,
    given: &Given,
    status: u8,
    development: &[u8],
    found: &mut Vec<u8>,
    err: &mut E,
) -> u8 {
    if status != SUCCESS || !matches!(given.put, Some(Put::Certificate(_))) {
        return status;
    }
    let Ok(words) = proving(alloc) else {
        return OUT_OF_MEMORY;
    };
    let mut files = Printed { text: development };
    execute(rt, alloc, words.as_slice(), &mut files, found, err)
}
