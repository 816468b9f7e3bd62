//! Lists with only the first word looked at.
ghost use Rattle.lc_reading.specs.Parts.{tree_of, place_of};
ghost use Rattle.lc_reading.specs.Results.{IsReading};
ghost use Rattle.lc_object_text.specs.Headed.{headed_reading};

use lc_reading::{Part, ReadFault, Reads, behind_word};
use std::alloc::Global;

/// Lists that begin with a word.
#[derive(Clone, Copy)]
pub(crate) struct Headed<'b>(pub(crate) &'b str);

/// What is wrong in an item where a list that begins with a word is expected.
pub(crate) fn read_headed(part: Part<'_>, word: &str) -> Result<(), ReadFault>
    ensures { IsReading (λ u. u) (headed_reading word.now (place_of part.entry) (tree_of part.entry)) result }
{
    let _ = behind_word(part, word)?;
    Ok(())
}

impl Reads for Headed<'_> {
    ghost use Rattle.lc_object_text.specs.Headed.{headed_reading};

    type Value = ();

    ghost Meaning = { Unit {0} };

    ghost meaning = { λ u. u };

    ghost reading = { λ reader. headed_reading reader.0.now };

    fn read(&self, _: Global, part: Part<'_>) -> Result<(), ReadFault> {
        read_headed(part, self.0)
    }
}
