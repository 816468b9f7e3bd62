//! Files in memory.
use lincheck::Files;
use std::io;
use std::io::ErrorKind;

/// The files at the paths `a`, `b`, `c` and `d`. There are no others.
#[derive(Clone, Copy)]
pub struct Folder<'a>(pub &'a [u8], pub &'a [u8], pub &'a [u8], pub &'a [u8]);

impl<'a> Files for Folder<'a> {
    ghost use Rattle.lincheck_claims.specs.Folders.{file_at};

    type Reader = &'a [u8];

    ghost bytes_at = { λ files path. file_at files.0.now files.1.now files.2.now files.3.now path };

    fn open(&mut self, path: &str) -> io::Result<&'a [u8]> {
        match path {
            "a" => Ok(self.0),
            "b" => Ok(self.1),
            "c" => Ok(self.2),
            "d" => Ok(self.3),
            _ => Err(io::Error::from(ErrorKind::NotFound)),
        }
    }
}
