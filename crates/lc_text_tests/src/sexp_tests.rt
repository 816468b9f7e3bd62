//! Numbers and variables as they are written are cases of the program `lc_cases`.
use lc_base::{Fault, OutOfMemory, Refusal};
use lc_sexp::{Cursor, Forms, Misfit, Reader, Sexp, is_atom, print, read};
use std::alloc::Global;
use std::test::Fail;

/// Whether a text is refused with a fault at this offset.
fn is_refused(alloc: Global, text: &[u8], offset: u64) -> bool {
    matches!(Forms::read(alloc, text), Err(Fault::Refused(Refusal::Text(at))) if at == offset)
}

/// What a text prints as, once it was read in pieces of this many bytes.
fn read_in_pieces(alloc: Global, text: &[u8], size: usize) -> Result<Vec<u8>, Fault> {
    let mut reader = Reader::new(alloc);
    for piece in text.chunks(size.max(1)) {
        reader.feed(piece)?;
    }
    Ok(print(alloc, &reader.finish()?.parts(alloc)?)?)
}

/// Whether a text that is read at once prints as this.
fn prints_as(alloc: Global, text: &[u8], want: &[u8]) -> Result<bool, Fault> {
    Ok(read_in_pieces(alloc, text, text.len())?.as_slice() == want)
}

#[test]
fn the_file_limit(rt: HostRuntime) -> Result<(), Fail> {
    let mut spaces = vec![in rt.alloc(); b' '; 16_777_216]?;
    let is_read = prints_as(rt.alloc(), &spaces, b"")?;
    spaces.push(b' ')?;
    assert!(rt; is_read & is_refused(rt.alloc(), &spaces, 16_777_216));
    Ok(())
}

/// Whether the text of a byte alone is an atom, nothing, or refused, as the byte says.
fn is_read_alone(alloc: Global, byte: u8) -> Result<bool, Fault> {
    match byte {
        b' ' | b'\t' | b'\n' | b'\r' | b';' => prints_as(alloc, &[byte], b""),
        b'a'..=b'z' | b'A'..=b'Z' | b'0'..=b'9' => prints_as(alloc, &[byte], &[byte, b'\n']),
        b'+' | b'-' | b'*' | b'/' | b'<' | b'>' | b'=' | b'_' | b'.' | b'?' => {
            prints_as(alloc, &[byte], &[byte, b'\n'])
        }
        b'(' => Ok(is_refused(alloc, &[byte], 1)),
        _ => Ok(is_refused(alloc, &[byte], 0)),
    }
}

#[test]
fn each_byte_alone(rt: HostRuntime) -> Result<(), Fail> {
    for byte in 0..=255u8 {
        assert!(rt; is_read_alone(rt.alloc(), byte)?, "byte {byte}");
    }
    Ok(())
}

#[test]
fn prints_what_it_read(rt: HostRuntime) -> Result<(), Fail> {
    for (text, want) in [
        ("", ""),
        (";x", ""),
        (" \t\n\r", ""),
        (";\u{e9} ) (\n", ""),
        (";\r)", ""),
        ("(a(b c) ()d)e;x\nf;", "(a (b c) () d)\ne\nf\n"),
        ("(a (b c) () d)\ne\nf\n", "(a (b c) () d)\ne\nf\n"),
    ] {
        assert!(rt;
            prints_as(rt.alloc(), text.as_bytes(), want.as_bytes())?,
            "{text}"
        );
    }
    Ok(())
}

/// What an atom prints as; nothing if there is no such atom.
fn printed_atom(alloc: Global, text: &str) -> Result<Vec<u8>, OutOfMemory> {
    if !is_atom(text.as_bytes()) {
        return Ok(Vec::new(alloc));
    }
    let atom = Sexp::atom(alloc, text)?;
    print(alloc, &[atom])
}

/// Whether an atom prints as this.
fn is_printed(alloc: Global, text: &str, want: &str) -> Result<bool, OutOfMemory> {
    Ok(printed_atom(alloc, text)?.as_slice() == want.as_bytes())
}

#[test]
fn prints_what_was_made(rt: HostRuntime) -> Result<(), Fail> {
    for (text, want) in [
        ("rd", "rd\n"),
        (
            "a-name-of-more-than-sixteen-bytes",
            "a-name-of-more-than-sixteen-bytes\n",
        ),
        ("", ""),
        ("a b", ""),
    ] {
        assert!(rt; is_printed(rt.alloc(), text, want)?, "{text}");
    }
    Ok(())
}

/// Whether a text reads in pieces of this many bytes as it does at once.
fn reads_alike(alloc: Global, text: &str, size: usize) -> bool {
    let pieces = read_in_pieces(alloc, text.as_bytes(), size);
    pieces == read_in_pieces(alloc, text.as_bytes(), 100)
}

#[test]
fn pieces_read_as_the_whole(rt: HostRuntime) {
    for text in ["(ab (cd) ;x y\n efg)hi", "(ab", "ab)", "a;", ""] {
        let by_one_or_two = reads_alike(rt.alloc(), text, 1) & reads_alike(rt.alloc(), text, 2);
        assert!(rt; by_one_or_two & reads_alike(rt.alloc(), text, 7), "{text}");
    }
}

/// `(<= -3 9223372036854775808)`, whose last item is item 5.
fn walks_a_comparison(goal: &mut Cursor<'_>) -> Result<bool, Misfit> {
    let mut comparison = goal.form("<=")?;
    let small = comparison.integer()? == -3;
    let too_large = comparison.integer().err() == Some(Misfit::Bound(5));
    let no_name = comparison.name().err() == Some(Misfit::Shape(5));
    let no_end = comparison.end().err() == Some(Misfit::Shape(5));
    Ok(small & too_large & no_name & no_end)
}

/// `?4 x`; the second is item 7.
fn walks_to_the_end(goal: &mut Cursor<'_>) -> Result<bool, Misfit> {
    let no_list = goal.list().err() == Some(Misfit::Shape(6));
    let variable = (goal.variable()? == 4) & (goal.number() == 7);
    let name = goal.name()? == "x";
    let no_more = goal.name().err() == Some(Misfit::Shape(0));
    Ok(no_list & variable & name & no_more & goal.end().is_ok())
}

/// `(goal ..) y`; the second is item 8.
fn walks_a_file(file: &mut Cursor<'_>) -> Result<bool, Misfit> {
    let owner = file.owner() == 9;
    let other_form = !file.is_at_form("hyps") & (file.form("hyps").err() == Some(Misfit::Shape(0)));
    let mut goal = file.form("goal")?;
    let three_parts = (goal.at_least(4).err() == Some(Misfit::Shape(0))) & (goal.len() == 3);
    let inside = walks_a_comparison(&mut goal)? & walks_to_the_end(&mut goal)?;
    Ok(owner & other_form & three_parts & inside)
}

/// `(goal ..) y`, from its beginning to its end.
fn walks_to_the_last(file: &mut Cursor<'_>) -> Result<bool, Misfit> {
    let two = file.len() == 2;
    let walked = walks_a_file(file)?;
    let no_end = file.end().err() == Some(Misfit::Shape(8));
    let last = file.atom()?.text() == "y";
    let no_more = file.item().err() == Some(Misfit::Shape(9));
    Ok(two & walked & no_end & last & no_more)
}

#[test]
fn walks_a_formula(rt: HostRuntime) -> Result<(), Fail> {
    let forms = Forms::read(rt.alloc(), b"(goal (<= -3 9223372036854775808) ?4 x) y")?;
    assert!(rt; walks_to_the_last(&mut forms.cursor())?);
    Ok(())
}

/// Whether a list has copies of its parts.
fn is_listed(alloc: Global, parts: &[Sexp]) -> Result<bool, OutOfMemory> {
    let list = Sexp::list(alloc, parts)?;
    let seven = list.item_count() == 7;
    Ok(seven & (print(alloc, &[list])?.as_slice() == b"((a (b)) c ())\n".as_slice()))
}

/// Whether a row has copies of its forms.
fn is_in_a_row(alloc: Global, parts: &[Sexp]) -> Result<bool, OutOfMemory> {
    let row = Forms::of(alloc, parts)?;
    let mut cursor = row.cursor();
    let owner = cursor.owner() == 6;
    Ok(owner & cursor.item().is_ok_and(|item| item.parts().len() == 2))
}

#[test]
fn lists_are_made_of_copies(rt: HostRuntime) -> Result<(), Fail> {
    let parts = read(rt.alloc(), b"(a (b)) c ()")?;
    assert!(rt; is_listed(rt.alloc(), &parts)? & is_in_a_row(rt.alloc(), &parts)?);
    Ok(())
}

/// Lists are nested beyond what a file may have: nothing recurses, in making, printing or dropping.
#[test]
fn deep_lists(rt: HostRuntime) -> Result<(), Fail> {
    let mut deep = Vec::new(rt.alloc());
    for _ in 0..1100 {
        let list = Sexp::list(rt.alloc(), &deep)?;
        deep.clear();
        deep.push(list)?;
    }
    assert!(rt; print(rt.alloc(), &deep)?.len() == 2201);
    Ok(())
}

/// With any allocation refused: `OutOfMemory`, or the answer with ample memory.
#[test]
fn memory_refused(rt: HostRuntime) {
    let text = b"(ab (a-name-of-more-than-sixteen-bytes) () c) d";
    let want = b"(ab (a-name-of-more-than-sixteen-bytes) () c)\nd\n";
    let is_answered = match read_in_pieces(rt.alloc(), text, 3) {
        Ok(printed) => printed.as_slice() == want.as_slice(),
        Err(fault) => fault == Fault::OutOfMemory,
    };
    assert!(rt; is_answered);
}

/// Once out of memory a reader returns nothing else any more.
#[test]
fn memory_refused_stays_refused(rt: HostRuntime) {
    let mut reader = Reader::new(rt.alloc());
    let mut refused = false;
    for _ in 0..20 {
        let fed = reader.feed(b"(ab (cd");
        assert!(rt; !refused || fed.is_err());
        refused = fed.is_err();
    }
    let answer = reader.finish();
    assert!(rt; !refused || answer.is_err());
}
