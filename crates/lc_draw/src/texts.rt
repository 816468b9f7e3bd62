//! What the bars of calls say.
ghost use Rattle.std.specs.Prelude.{◌≡◌, true, string_bytes};
ghost use Rattle.lc_draw.specs.Elements.{are_plain, is_plain};

use crate::calls::Call;
use lc_base::OutOfMemory;
use lc_seq::{Operation, Pick};
use std::alloc::Global;

/// A text of printed characters, without markup.
#[derive(Drop)]
pub(crate) struct Plain {
    text: String,
    ghost plain: { are_plain (string_bytes text) ≡ true },
}

fn is_plain(byte: u8) -> bool
    ensures { result ≡ is_plain byte }
{
    b' ' <= byte && byte <= b'~' && !matches!(byte, b'"' | b'&' | b'<' | b'>')
}

fn are_plain(bytes: &[u8]) -> bool
    ensures { result ≡ are_plain bytes.now }
{
    bytes.iter().all(|byte| is_plain(*byte))
}

impl Plain {
    ghost use Rattle.std.specs.Prelude.{◌≡◌, true};
    ghost use Rattle.lc_draw.specs.Elements.{are_plain};

    pub(crate) fn new(alloc: Global) -> Plain {
        Plain {
            text: String::new(alloc),
        }
    }

    /// With a word after it, which has no markup; one that had would be left out.
    pub(crate) fn word(self, word: &str) -> Result<Plain, OutOfMemory> {
        if !are_plain(word.as_bytes()) {
            return Ok(self);
        }
        let Plain { mut text } = self;
        text.push_str(word)?;
        Ok(Plain { text })
    }

    /// With a number after it.
    pub(crate) fn number(self, number: i64) -> Result<Plain, OutOfMemory> {
        let Plain { mut text } = self;
        write!(text, "{number}")?;
        Ok(Plain { text })
    }

    /// With numbers after it, and commas between them.
    fn numbers(self, numbers: &[i64]) -> Result<Plain, OutOfMemory> {
        let mut text = self;
        for (place, number) in numbers.iter().enumerate() {
            if place > 0 {
                text = text.word(", ")?;
            }
            text = text.number(*number)?;
        }
        Ok(text)
    }

    /// Its text.
    pub(crate) fn as_str(&self) -> &str
        ensures { are_plain result.now ≡ true }
    {
        self.text.as_str()
    }

    /// How many bytes it has.
    pub(crate) fn len(&self) -> usize {
        self.text.len()
    }
}

/// `NAME(NUMBER, ..)`; after it ` = NUMBER, ..`, what the call returned, if it returned numbers; and ` by NAME(NUMBER, ..)`, how its
/// branch was chosen, if that was by name.
pub(crate) fn call_text(
    alloc: Global,
    operations: &[Operation],
    call: &Call<'_>,
) -> Result<Plain, OutOfMemory> {
    let mut text = Plain::new(alloc);
    if let Some(operation) = operations.get(call.op.0 as usize) {
        text = text.word(operation.name.as_str())?;
    }
    text = text.word("(")?.numbers(call.numbers)?.word(")")?;
    if let Some(reply) = call.reply {
        if !reply.is_empty() {
            text = text.word(" = ")?.numbers(reply)?;
        }
    }
    if let Some(Pick::Named { name, numbers }) = call.choice {
        text = text.word(" by ")?.word(name.as_str())?;
        text = text.word("(")?.numbers(numbers)?.word(")")?;
    }
    Ok(text)
}
