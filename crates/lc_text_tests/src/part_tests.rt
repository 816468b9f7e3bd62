//! Files that are read in pieces, with parts taken meanwhile.
use lc_base::{Fault, OutOfMemory, Refusal};
use lc_sexp::{Part, Reader, print};
use std::alloc::Global;
use std::test::Fail;

/// Items: `a` 0, `(b (c d) e)` 1, `b` 2, `(c d)` 3, `e` 6, `f` 7, `()` 8, `((g)h)` 9, `(g)` 10, `h` 12.
const TEXT: &[u8] = b"a (b (c d) e);x)\n f()\n((g)h)";

/// Its parts, each with the number of its form and its own.
const PARTS: &[u8] = b"1 2 b\n1 3 (c d)\n1 6 e\n4 10 (g)\n4 12 h\n";

/// Its forms without their parts.
const SHELLS: &[u8] = b"a\n()\nf\n()\n()\n";

/// Writes down a part: the number of its form, its own and its text.
fn tell(alloc: Global, told: &mut Vec<u8>, part: Part) -> Result<(), OutOfMemory> {
    told.extend_from_slice(format!(in alloc; "{} {} ", part.form, part.item)?.as_bytes())?;
    let mut sexps = Vec::new(alloc);
    sexps.push(part.sexp)?;
    told.extend_from_slice(&print(alloc, &sexps)?)?;
    Ok(())
}

/// Takes at most `most` parts of those that are ready.
fn take_some(
    alloc: Global,
    reader: &mut Reader,
    told: &mut Vec<u8>,
    most: usize,
) -> Result<(), OutOfMemory> {
    for _ in 0..most {
        match reader.take() {
            Some(part) => tell(alloc, told, part)?,
            None => return Ok(()),
        }
    }
    Ok(())
}

/// The parts of a text that is fed in pieces of these sizes in turn, with takes of at most `most` parts in between,
/// and what its forms print as in the end.
fn taken_in_pieces(
    alloc: Global,
    text: &[u8],
    sizes: &[usize],
    most: usize,
) -> Result<(Vec<u8>, Vec<u8>), Fault> {
    let mut reader = Reader::new(alloc);
    let mut told = Vec::new(alloc);
    let mut rest = text;
    for turn in 0..text.len() {
        let size = match sizes.get(turn % sizes.len().max(1)) {
            Some(size) => *size,
            None => 1,
        };
        let (piece, behind) = rest.split_at(size.min(rest.len()));
        reader.feed(piece)?;
        take_some(alloc, &mut reader, &mut told, most)?;
        rest = behind;
    }
    reader.feed(rest)?;
    take_some(alloc, &mut reader, &mut told, most)?;
    Ok((told, print(alloc, &reader.finish()?.parts(alloc)?)?))
}

#[test]
fn parts_are_taken_in_order(rt: HostRuntime) -> Result<(), Fail> {
    for sizes in [
        [1, 1, 1],
        [2, 2, 2],
        [7, 7, 7],
        [1, 5, 3],
        [4, 0, 11],
        [28, 1, 1],
    ] {
        let (parts, shells) = taken_in_pieces(rt.alloc(), TEXT, &sizes, 10)?;
        assert!(rt; parts.as_slice() == PARTS, "{sizes:?}");
        assert!(rt; shells.as_slice() == SHELLS, "{sizes:?}");
    }
    Ok(())
}

/// Pieces of sizes that a generator of numbers gives.
#[test]
fn parts_at_random_cuts(rt: HostRuntime) -> Result<(), Fail> {
    let mut number = 1u32;
    for _ in 0..50 {
        let mut sizes = [0usize; 5];
        for size in sizes.iter_mut() {
            number = number.wrapping_mul(1_103_515_245).wrapping_add(12_345);
            *size = (number / 65_536 % 6) as usize;
        }
        let (parts, shells) = taken_in_pieces(rt.alloc(), TEXT, &sizes, 2)?;
        assert!(rt; PARTS.starts_with(parts.as_slice()), "{sizes:?}");
        assert!(rt;
            parts.as_slice() != PARTS || shells.as_slice() == SHELLS,
            "{sizes:?}"
        );
    }
    Ok(())
}

/// What was not taken stays in its list.
#[test]
fn parts_that_were_not_taken(rt: HostRuntime) -> Result<(), Fail> {
    let mut reader = Reader::new(rt.alloc());
    let mut told = Vec::new(rt.alloc());
    reader.feed(TEXT)?;
    take_some(rt.alloc(), &mut reader, &mut told, 4)?;
    assert!(rt; told.as_slice() == b"1 2 b\n1 3 (c d)\n1 6 e\n4 10 (g)\n".as_slice());
    let left = print(rt.alloc(), &reader.finish()?.parts(rt.alloc())?)?;
    assert!(rt; left.as_slice() == b"a\n()\nf\n()\n(h)\n".as_slice());
    Ok(())
}

/// The parts that end before the first fault of a text, and its offset.
fn parts_and_fault(alloc: Global, text: &[u8]) -> Result<(Vec<u8>, Option<u64>), OutOfMemory> {
    let mut reader = Reader::new(alloc);
    let mut told = Vec::new(alloc);
    reader.feed(text)?;
    take_some(alloc, &mut reader, &mut told, 10)?;
    let offset = match reader.finish() {
        Err(Fault::Refused(Refusal::Text(offset))) => Some(offset),
        Err(Fault::OutOfMemory) => return Err(OutOfMemory),
        _ => None,
    };
    Ok((told, offset))
}

/// An atom at the end of what was fed may go on, so it is no part yet.
#[test]
fn parts_before_a_fault(rt: HostRuntime) -> Result<(), Fail> {
    for (text, parts, offset) in [
        ("(a b)) (c)", "0 1 a\n0 2 b\n", 5),
        ("(a b %c)", "0 1 a\n0 2 b\n", 5),
        ("(a b%c)", "0 1 a\n", 4),
        ("(a b", "0 1 a\n", 4),
        ("(a ((b) c", "0 1 a\n", 9),
        ("x (", "", 3),
    ] {
        let (told, fault) = parts_and_fault(rt.alloc(), text.as_bytes())?;
        assert!(rt; told.as_slice() == parts.as_bytes(), "{text}");
        assert!(rt; fault == Some(offset), "{text}");
    }
    Ok(())
}

/// With any allocation refused: `OutOfMemory`, or the answer with ample memory.
#[test]
fn parts_with_memory_refused(rt: HostRuntime) {
    match taken_in_pieces(rt.alloc(), TEXT, &[3, 4], 1) {
        Ok((parts, shells)) => {
            assert!(rt; parts.as_slice() == PARTS);
            assert!(rt; shells.as_slice() == SHELLS);
        }
        Err(fault) => assert!(rt; fault == Fault::OutOfMemory),
    }
}
