//! The files of the system.
use crate::files::Files;
use std::io::ErrorKind;
use std::{fs, io, rt};

/// The path that names standard input.
const STANDARD_INPUT: &str = "-";

/// Where the system has standard input as a file.
const STANDARD_INPUT_FILE: &str = "/dev/stdin";

/// The files of the system, and standard input as the file `-`, which is opened once.
#[derive(Drop)]
pub struct Disk<'r, R> {
    rt: &'r R,
    is_input_taken: bool,
}

impl<'r, R: rt::Files> Disk<'r, R> {
    pub fn new(rt: &'r R) -> Disk<'r, R> {
        Disk {
            rt,
            is_input_taken: false,
        }
    }
}

impl<'r, R: rt::Files> Files for Disk<'r, R> {
    type Reader = R::File;

    fn open(&mut self, path: &str) -> io::Result<R::File> {
        if path != STANDARD_INPUT {
            return fs::open(self.rt, path);
        }
        if self.is_input_taken {
            return Err(io::Error::from(ErrorKind::InvalidInput));
        }
        self.is_input_taken = true;
        fs::open(self.rt, STANDARD_INPUT_FILE)
    }
}
