ghost use Rattle.std.specs.Prelude.{◌≡◌, ◌-◌, ◌==◌, ◌&&◌, cond, count_by, MatchOption};
ghost use Rattle.lc_sexp.specs.Reads.{text_of};
ghost use Rattle.lc_place.specs.Open.{IsInnermostOpen, AreAllClosed};
ghost use Rattle.lc_place.specs.Place.{IsOpenList};

use crate::place::{Place, place_at};
use crate::text::{counted, next_byte};

/// How many lists a text opens, and how many it closes.
#[derive(Clone, Copy)]
struct Brackets {
    opened: usize,
    closed: usize,
}

impl Brackets {
    /// Those of the text after its first byte.
    fn behind(self, byte: u8) -> Brackets
        ensures opened { result.opened ≡ self.opened - cond (byte == 40) 1 0 }
        ensures closed { result.closed ≡ self.closed - cond (byte == 41) 1 0 }
    {
        Brackets {
            opened: self.opened.saturating_sub(counted(byte == b'(')),
            closed: self.closed.saturating_sub(counted(byte == b')')),
        }
    }

    /// Whether as many lists are closed as opened after a byte that opens one.
    fn is_even_behind(self, byte: u8) -> bool
        ensures { result ≡ (byte == 40 && self.opened == self.closed) }
    {
        byte == b'(' && self.opened == self.closed
    }
}

/// How many lists the text of these bytes opens and closes.
fn brackets_of(bytes: &[u8]) -> Brackets
    ensures opened { result.opened ≡ count_by (λ b. b == 40) (text_of bytes.now) }
    ensures closed { result.closed ≡ count_by (λ b. b == 41) (text_of bytes.now) }
{
    let mut opened = 0;
    let mut closed = 0;
    let mut in_comment = false;
    for byte in bytes {
        let seen = next_byte(&mut in_comment, *byte);
        opened += counted(seen == b'(');
        closed += counted(seen == b')');
    }
    Brackets { opened, closed }
}

/// Where the innermost list begins that is open at the end: the last one after which as many lists are closed as opened.
fn innermost_open(bytes: &[u8]) -> Option<usize>
    ensures { MatchOption result (AreAllClosed (text_of bytes.now)) (IsInnermostOpen (text_of bytes.now)) }
{
    let mut left = brackets_of(bytes);
    let mut innermost = None;
    let mut in_comment = false;
    for (at, byte) in bytes.iter().enumerate() {
        let seen = next_byte(&mut in_comment, *byte);
        left = left.behind(seen);
        if left.is_even_behind(seen) {
            innermost = Some(at);
        }
    }
    innermost
}

/// The place of the innermost list that is open at the end of a file, with everything after it. `None` exactly if none is open:
/// each list of the text is closed.
pub fn open_list_place(bytes: &[u8]) -> Option<Place>
    ensures { MatchOption result (AreAllClosed (text_of bytes.now)) (IsOpenList bytes.now) }
{
    let offset = innermost_open(bytes)?;
    Some(place_at(bytes, offset, bytes.len() - offset))
}
