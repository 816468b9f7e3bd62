//! Files, of which it is kept what is read of them, for those who ask why one is refused.
use crate::files::Files;
use lc_base::OutOfMemory;
use std::alloc::Global;
use std::io;

/// What was read of files, in the order in which they were opened.
pub struct Texts {
    alloc: Global,
    /// How many files were opened.
    opened: usize,
    /// What was read of them, up to the last one of which a byte was read.
    texts: Vec<Vec<u8>>,
}

impl Drop for Texts {
    fn drop(self) {
        let Texts {
            alloc: _,
            opened: _,
            texts: _,
        } = self;
    }
}

impl Texts {
    /// Nothing.
    pub fn new(alloc: Global) -> Texts {
        Texts {
            alloc,
            opened: 0,
            texts: Vec::new(alloc),
        }
    }

    /// How many files were opened.
    pub fn count(&self) -> usize {
        self.opened
    }

    /// What was read of the file that was opened after `place` others.
    pub fn text(&self, place: usize) -> &[u8] {
        match self.texts.get(place) {
            Some(text) => text,
            None => &[],
        }
    }

    /// Appends bytes to those of the file that was opened last.
    fn push(&mut self, piece: &[u8]) -> Result<(), OutOfMemory> {
        for _ in self.texts.len()..self.opened {
            self.texts.push(Vec::new(self.alloc))?;
        }
        if let Some(text) = self.texts.last_mut() {
            text.extend_from_slice(piece)?;
        }
        Ok(())
    }
}

/// Other files, and what was read of them, if that is to be kept.
#[derive(Drop)]
pub struct Kept<'f, F: Files> {
    pub files: &'f mut F,
    pub texts: Texts,
    pub is_kept: bool,
}

impl<'f, F: Files> Files for Kept<'f, F> {
    type Reader = F::Reader;

    ghost bytes_at = { λ kept path. F.bytes_at kept.files.now path };

    ghost CannotOpen = { λ kept path. F.CannotOpen kept.files.now path };

    fn open(&mut self, path: &str) -> io::Result<F::Reader> {
        self.texts.opened = self.texts.opened.saturating_add(1);
        self.files.open(path)
    }

    fn note(&mut self, piece: &[u8]) -> Result<(), OutOfMemory> {
        if self.is_kept {
            self.texts.push(piece)?;
        }
        Ok(())
    }
}
