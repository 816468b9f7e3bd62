//! S-expressions: files and their forms, parts that are handed out, cursors, and what is printed.
ghost use Rattle.std.specs.Prelude.{◌≡◌, ◌++◌, ◌∷◌, [], ℕ, List, true, Err, IfOk, IfSome, OnOk};
ghost use Rattle.lc_base.specs.declared.refusal.Fault.TheVariants.{OutOfMemory as NoMemory};
ghost use Rattle.lc_sexp.specs.Answers.{IsAnswerTo, IsAnswerInParts};
ghost use Rattle.lc_sexp.specs.CutFiles.{IsPieceRead};
ghost use Rattle.lc_sexp.specs.Parts.{name_fit};
ghost use Rattle.lc_sexp.specs.Pieces.{WasFed, is_spent};
ghost use Rattle.lc_sexp.specs.Printed.{printed};
ghost use Rattle.lc_sexp.specs.Reading.{IsAfterTaking};
ghost use Rattle.lc_sexp.specs.Shown.{GivesPart, ShowsText};
ghost use Rattle.lc_sexp.specs.Trees.{row};
ghost use Rattle.lc_sexp.specs.declared.part.Part.{Part as FilePart};

use lc_base::{Fault, OutOfMemory};
use lc_sexp::{Cursor, Forms, FormsReader, Misfit, Part, Reader, Sexp, print, read, read_piece};
use std::alloc::Global;

/// A file reads as its trees, or has a first fault.
pub fn reading_a_file(alloc: Global, bytes: &[u8]) -> Result<Vec<Sexp>, Fault>
    ensures { IsAnswerInParts bytes.now result }
{
    read(alloc, bytes)
}

/// What comes in pieces is fed after what came before.
pub fn feeding(reader: &mut FormsReader, piece: &[u8]) -> Result<(), OutOfMemory>
    ensures { OnOk result ((fed : List ℕ) → WasFed reader.old fed → WasFed reader.new (fed ++ piece.now)) }
{
    reader.feed(piece)
}

/// The result for the pieces is that for the file that they join to.
pub fn finishing(reader: FormsReader) -> Result<Forms, Fault>
    ensures answer { (fed : List ℕ) → WasFed reader fed → IsAnswerTo fed result }
    ensures never_again { is_spent reader ≡ true → result ≡ Err NoMemory }
{
    reader.finish()
}

/// Parts are handed out in their order, with their numbers, each once.
pub fn taking(reader: &mut Reader) -> Option<Part>
    ensures { IfSome result (λ part. (fed : List ℕ) → (taken : List FilePart) →
        IsAfterTaking fed taken reader.old → IsAfterTaking fed (taken ++ (part ∷ [])) reader.new) }
{
    reader.take()
}

/// A NAME is returned if the item is one, and the cursor goes on after it; otherwise it stays.
pub fn naming<'a>(cursor: &mut Cursor<'a>) -> Result<&'a str, Misfit>
    ensures { GivesPart name_fit ShowsText cursor.old result cursor.new }
{
    cursor.name()
}

/// Trees are printed as is defined.
pub fn printing(alloc: Global, sexps: &[Sexp]) -> Result<Vec<u8>, OutOfMemory>
    ensures { IfOk result (λ text. text.items ≡ printed (row sexps.now)) }
{
    print(alloc, sexps)
}

/// For a piece, its tree is returned, if it is one.
pub fn reading_a_piece(alloc: Global, text: &[u8]) -> Result<Option<Sexp>, OutOfMemory>
    ensures { IfOk result (IsPieceRead text.now) }
{
    read_piece(alloc, text)
}
