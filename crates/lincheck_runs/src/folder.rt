//! Files in memory.
use lincheck::Files;
use std::io;
use std::io::ErrorKind;

/// A folder with the files that `carry` reads.
#[derive(Clone, Copy)]
pub struct Folder<'a> {
    pub old: &'a [u8],
    pub certificate: &'a [u8],
    pub new: &'a [u8],
    pub hints: &'a [u8],
}

impl<'a> Files for Folder<'a> {
    type Reader = &'a [u8];

    fn open(&mut self, path: &str) -> io::Result<&'a [u8]> {
        match path {
            "old" => Ok(self.old),
            "certificate" => Ok(self.certificate),
            "new" => Ok(self.new),
            "hints" => Ok(self.hints),
            _ => Err(io::Error::from(ErrorKind::NotFound)),
        }
    }
}

/// A file that was read.
pub struct Kept<'a> {
    pub path: &'a str,
    pub bytes: Vec<u8>,
}

impl Drop for Kept<'_> {
    fn drop(self) {
        let Kept { path: _, bytes: _ } = self;
    }
}

/// Files that were read, and one that is edited.
#[derive(Clone, Copy)]
pub struct Edited<'a> {
    pub path: &'a str,
    pub text: &'a str,
    pub others: &'a [Kept<'a>],
}

impl<'a> Files for Edited<'a> {
    type Reader = &'a [u8];

    fn open(&mut self, path: &str) -> io::Result<&'a [u8]> {
        if path == self.path {
            return Ok(self.text.as_bytes());
        }
        for file in self.others {
            if path == file.path {
                return Ok(&file.bytes);
            }
        }
        Err(io::Error::from(ErrorKind::NotFound))
    }
}

/// A folder with the files that `run` reads, and `judge` after it.
#[derive(Clone, Copy)]
pub struct Planned<'a> {
    pub development: &'a [u8],
    pub certificate: &'a [u8],
    pub plan: &'a [u8],
    pub history: &'a [u8],
}

impl<'a> Files for Planned<'a> {
    type Reader = &'a [u8];

    fn open(&mut self, path: &str) -> io::Result<&'a [u8]> {
        match path {
            "development" => Ok(self.development),
            "certificate" => Ok(self.certificate),
            "plan" => Ok(self.plan),
            "history" => Ok(self.history),
            _ => Err(io::Error::from(ErrorKind::NotFound)),
        }
    }
}
