//! Files and streams in memory, and runs of the program over them.
use lincheck::{Files, execute};
use std::alloc::{AllocError, Global};
use std::io;
use std::io::{ErrorKind, Read, Write};
use std::sync::Wait;
use std::thread::Threads;

/// What a file does after its bytes.
#[derive(Clone, Copy)]
pub enum End {
    Ends,
    Fails,
    IsInterrupted,
}

/// A file in memory. Each read gives one byte.
#[derive(Clone, Copy)]
pub struct File<'a> {
    pub bytes: &'a [u8],
    pub end: End,
    /// How many reads are interrupted first.
    pub interruptions: u32,
}

impl<'a> File<'a> {
    pub fn new(text: &'a str, end: End) -> File<'a> {
        File {
            bytes: text.as_bytes(),
            end,
            interruptions: 0,
        }
    }
}

impl Read for File<'_> {
    fn read(&mut self, buf: &mut [u8]) -> io::Result<usize> {
        if self.interruptions > 0 {
            self.interruptions -= 1;
            return Err(io::Error::from(ErrorKind::Interrupted));
        }
        let (Some((first, rest)), Some(place)) = (self.bytes.split_first(), buf.first_mut()) else {
            return match self.end {
                End::Ends => Ok(0),
                End::Fails => Err(io::Error::from(ErrorKind::Other)),
                End::IsInterrupted => Err(io::Error::from(ErrorKind::Interrupted)),
            };
        };
        *place = *first;
        self.bytes = rest;
        Ok(1)
    }
}

/// A folder with a file `a` and a file `b`, if they are there. It counts how often a file is opened.
#[derive(Drop)]
pub struct Folder<'a> {
    pub first: Option<File<'a>>,
    pub second: Option<File<'a>>,
    pub opened: u32,
}

impl<'a> Folder<'a> {
    pub fn of(first: Option<File<'a>>) -> Folder<'a> {
        Folder {
            first,
            second: None,
            opened: 0,
        }
    }
}

impl<'a> Files for Folder<'a> {
    type Reader = File<'a>;

    fn open(&mut self, path: &str) -> io::Result<File<'a>> {
        self.opened = self.opened.saturating_add(1);
        let file = match path {
            "a" => self.first,
            "b" => self.second,
            _ => None,
        };
        match file {
            Some(file) => Ok(file),
            None => Err(io::Error::from(ErrorKind::NotFound)),
        }
    }
}

/// A file that is the same at each path, and whose bytes are known.
#[derive(Drop)]
pub struct Everywhere<'a> {
    pub bytes: &'a [u8],
}

impl<'a> Files for Everywhere<'a> {
    ghost use Rattle.std.specs.Prelude.{Some};

    type Reader = &'a [u8];

    ghost bytes_at = { λ files _. Some files.bytes.now };

    fn open(&mut self, _path: &str) -> io::Result<&'a [u8]> {
        Ok(self.bytes)
    }
}

/// A writer that takes nothing.
#[derive(Drop)]
pub struct Full;

impl Write for Full {
    fn write(&mut self, _buf: &[u8]) -> io::Result<usize> {
        Err(io::Error::from(ErrorKind::StorageFull))
    }

    fn flush(&mut self) -> io::Result<()> {
        Ok(())
    }
}

pub fn words_of(alloc: Global, words: &[&str]) -> Result<Vec<String>, AllocError> {
    let mut strings = Vec::new(alloc);
    for word in words {
        strings.push(String::from_str(alloc, word)?)?;
    }
    Ok(strings)
}

/// How a run of the program ended: its status, and what it wrote.
#[derive(Drop)]
pub struct Ended {
    pub status: u8,
    pub out: Vec<u8>,
    pub err: Vec<u8>,
}

impl Ended {
    pub fn is(&self, status: u8, out: &str, err: &str) -> bool {
        (self.status == status)
            & (self.out.as_slice() == out.as_bytes())
            & (self.err.as_slice() == err.as_bytes())
    }
}

pub fn run<R: Threads + Wait + Sync, F: Files>(
    rt: &R,
    alloc: Global,
    words: &[&str],
    files: &mut F,
) -> Result<Ended, AllocError> {
    let words = words_of(alloc, words)?;
    let mut out = Vec::new(alloc);
    let mut err = Vec::new(alloc);
    let status = execute(rt, alloc, words.as_slice(), files, &mut out, &mut err);
    Ok(Ended { status, out, err })
}
