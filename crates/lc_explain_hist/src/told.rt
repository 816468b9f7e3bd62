//! What is said of a history's file, sentence by sentence.
use crate::sentence::Sentence;
use lc_base::OutOfMemory;
use lc_explain::{Label, element_place, located};
use lc_place::{Place, byte_place};
use std::alloc::Global;

/// The array of the events, and that of the entries.
#[derive(Clone, Copy)]
pub(crate) enum Row {
    Events,
    Order,
}

impl Row {
    pub(crate) fn key(self) -> &'static str {
        match self {
            Row::Events => "events",
            Row::Order => "order",
        }
    }
}

/// The text that is written of a file.
pub(crate) struct Told<'a> {
    alloc: Global,
    path: &'a str,
    bytes: &'a [u8],
    text: Vec<u8>,
}

impl Drop for Told<'_> {
    fn drop(self) {
        let Told {
            alloc: _,
            path: _,
            bytes: _,
            text: _,
        } = self;
    }
}

impl<'a> Told<'a> {
    /// Nothing is said yet of the file at a path.
    pub(crate) fn new(alloc: Global, path: &'a str, bytes: &'a [u8]) -> Told<'a> {
        Told {
            alloc,
            path,
            bytes,
            text: Vec::new(alloc),
        }
    }

    /// What was said.
    pub(crate) fn into_text(self) -> Vec<u8> {
        let Told {
            alloc: _,
            path: _,
            bytes: _,
            text,
        } = self;
        text
    }

    /// Says a sentence of a place.
    fn say_at(
        &mut self,
        place: Place,
        label: Label,
        sentence: Sentence<'_>,
    ) -> Result<(), OutOfMemory> {
        let sentence = format!(in self.alloc; "{sentence}")?;
        let said = located(self.alloc, self.path, self.bytes, place, label, &sentence)?;
        self.text.extend_from_slice(&said)?;
        Ok(())
    }

    /// Says a sentence of the byte at an offset, or of the end.
    pub(crate) fn say_of_byte(
        &mut self,
        offset: usize,
        sentence: Sentence<'_>,
    ) -> Result<(), OutOfMemory> {
        match byte_place(self.bytes, offset as u64) {
            Some(place) => self.say_at(place, Label::Error, sentence),
            None => Ok(()),
        }
    }

    /// Says a sentence of an event or an entry, or of the whole file if that is not found in the text.
    pub(crate) fn say(
        &mut self,
        row: Row,
        index: usize,
        label: Label,
        sentence: Sentence<'_>,
    ) -> Result<(), OutOfMemory> {
        match element_place(self.bytes, row.key(), index).or(byte_place(self.bytes, 0)) {
            Some(place) => self.say_at(place, label, sentence),
            None => Ok(()),
        }
    }
}
