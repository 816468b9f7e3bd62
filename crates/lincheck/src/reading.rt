//! How files are read: in pieces, and no further than their limit.
ghost use Rattle.std.specs.Prelude.{◌≡◌, ℕ, List, OnOk, IfOk, IsErr};
ghost use Rattle.lc_sexp.specs.Pieces.{WasFed};
ghost use Rattle.lincheck.specs.Reading.{OfFile, ReadsToLimit, IsFedOn, within_limit};

use crate::answer::Failure;
use crate::files::Files;
use crate::sink::Sink;
use lc_base::{FILE_LIMIT, OutOfMemory};
use lc_sexp::FormsReader;
use std::alloc::Global;
use std::io;
use std::io::{ErrorKind, Read};

/// The most bytes that are read of a file: one more than a file may have, so that a file that is too long is seen to be.
pub const MOST_BYTES: usize = FILE_LIMIT as usize + 1;

/// The most reads of a file.
pub const MOST_READS: u64 = 33_554_432;

const PIECE: usize = 16_384;

/// Why a file was not read.
#[derive(Clone, Copy)]
pub enum ReadFault {
    /// For the reason that the system gives, if it gives one.
    Unreadable(Option<io::Error>),
    OutOfMemory,
}

/// Feeds the bytes that come next of a file, of which `files` takes note.
fn take_piece<F: Files, S: Sink>(
    files: &mut F,
    sink: &mut S,
    piece: &[u8],
) -> Result<(), OutOfMemory>
    ensures keeps { (other : List ℕ) → F.bytes_at files.new other ≡ F.bytes_at files.old other }
    ensures closed { (other : List ℕ) → F.CannotOpen files.old other → F.CannotOpen files.new other }
    ensures fed { OnOk result (IsFedOn S.WasFed sink.old sink.new piece.now) }
{
    files.note(piece)?;
    sink.feed(piece)
}

/// Feeds the bytes of a file, or its first `MOST_BYTES` bytes if it has more, in pieces, of which `files` takes note.
///
/// A read that answers `Interrupted` is tried again. Any other fault, and 33,554,432 reads that did not come to the
/// end, are `Unreadable`.
pub fn feed_to_limit<R: Read, F: Files, S: Sink>(
    reader: &mut R,
    files: &mut F,
    sink: &mut S,
) -> Result<(), ReadFault>
    ensures keeps { (other : List ℕ) → F.bytes_at files.new other ≡ F.bytes_at files.old other }
    ensures closed { (other : List ℕ) → F.CannotOpen files.old other → F.CannotOpen files.new other }
    ensures fed { OnOk result ((bytes : List ℕ) × ReadsToLimit (R.remaining reader.old) (R.remaining reader.new) bytes × IsFedOn S.WasFed sink.old sink.new bytes) }
{
    let mut left = MOST_BYTES;
    let mut piece = [0u8; PIECE];
    for _turn in 0..MOST_READS {
        let room = left.min(PIECE);
        if room == 0 {
            return Ok(());
        }
        match reader.read(&mut piece[..room]) {
            Ok(0) => return Ok(()),
            Ok(n) => {
                if take_piece(files, sink, &piece[..n]).is_err() {
                    return Err(ReadFault::OutOfMemory);
                }
                left -= n;
            }
            Err(error) => {
                if error.kind() != ErrorKind::Interrupted {
                    return Err(ReadFault::Unreadable(Some(error)));
                }
            }
        }
    }
    Err(ReadFault::Unreadable(None))
}

/// Feeds the bytes of the file at a path, or its first `MOST_BYTES` bytes if it has more, in pieces.
pub fn feed_file<'a, F: Files, S: Sink>(
    files: &mut F,
    path: &'a str,
    sink: &mut S,
) -> Result<(), Failure<'a>>
    ensures keeps { (other : List ℕ) → F.bytes_at files.new other ≡ F.bytes_at files.old other }
    ensures closed { (other : List ℕ) → F.CannotOpen files.old other → F.CannotOpen files.new other }
    ensures unread { F.CannotOpen files.old path.now → IsErr result }
    ensures fed { OnOk result ((bytes : List ℕ) × IsFedOn S.WasFed sink.old sink.new bytes × OfFile (F.bytes_at files.old path.now) (λ file. bytes ≡ within_limit file)) }
{
    let mut reader = match files.open(path) {
        Ok(reader) => reader,
        Err(error) => return Err(Failure::CannotRead(path, Some(error))),
    };
    match feed_to_limit(&mut reader, files, sink) {
        Ok(()) => Ok(()),
        Err(ReadFault::Unreadable(reason)) => Err(Failure::CannotRead(path, reason)),
        Err(ReadFault::OutOfMemory) => Err(Failure::OutOfMemory),
    }
}

/// A reader that was fed the file at a path, or its first `MOST_BYTES` bytes if it has more. The bytes are not held.
pub fn feed_forms<'a, F: Files>(
    alloc: Global,
    files: &mut F,
    path: &'a str,
) -> Result<FormsReader, Failure<'a>>
    ensures keeps { (other : List ℕ) → F.bytes_at files.new other ≡ F.bytes_at files.old other }
    ensures closed { (other : List ℕ) → F.CannotOpen files.old other → F.CannotOpen files.new other }
    ensures unread { F.CannotOpen files.old path.now → IsErr result }
    ensures fed { IfOk result (λ reader. (bytes : List ℕ) × WasFed reader bytes × OfFile (F.bytes_at files.old path.now) (λ file. bytes ≡ within_limit file)) }
{
    let mut reader = FormsReader::new(alloc);
    feed_file(files, path, &mut reader)?;
    Ok(reader)
}

/// The bytes of the file at a path, or its first `MOST_BYTES` bytes if it has more. Room grows with what is read.
pub fn read_file<'a, F: Files>(
    alloc: Global,
    files: &mut F,
    path: &'a str,
) -> Result<Vec<u8>, Failure<'a>>
    ensures keeps { (other : List ℕ) → F.bytes_at files.new other ≡ F.bytes_at files.old other }
    ensures closed { (other : List ℕ) → F.CannotOpen files.old other → F.CannotOpen files.new other }
    ensures unread { F.CannotOpen files.old path.now → IsErr result }
    ensures bytes { IfOk result (λ bytes. OfFile (F.bytes_at files.old path.now) (λ file. bytes.items ≡ within_limit file)) }
{
    let mut bytes = Vec::new(alloc);
    feed_file(files, path, &mut bytes)?;
    Ok(bytes)
}
