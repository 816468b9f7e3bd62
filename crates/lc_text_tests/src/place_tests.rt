//! Tests of the places of items, bytes and open lists, worked out by hand, and of the lines that are shown.
use lc_base::OutOfMemory;
use lc_place::{Place, byte_place, item_place, line_excerpt, open_list_place};
use std::alloc::Global;
use std::test::Fail;

/// Whether a place is at this offset, of `length` bytes, in this line and column.
fn is_at(place: Option<Place>, offset: usize, length: usize, line: usize, column: usize) -> bool {
    let Some(place) = place else {
        return false;
    };
    (place.offset == offset)
        & (place.length == length)
        & (place.line == line)
        & (place.column == column)
}

#[test]
fn items_of_one_line(rt: HostRuntime) {
    let text = b"(a bc) d";
    let list = is_at(item_place(text, 0), 0, 6, 1, 1);
    let atoms = is_at(item_place(text, 1), 1, 1, 1, 2) & is_at(item_place(text, 2), 3, 2, 1, 4);
    let last = is_at(item_place(text, 3), 7, 1, 1, 8) & item_place(text, 4).is_none();
    assert!(rt; list & atoms & last);
}

#[test]
fn no_item_of_an_empty_file(rt: HostRuntime) {
    assert!(rt; item_place(b"", 0).is_none() & item_place(b" ; (a)", 0).is_none());
}

#[test]
fn items_behind_comments(rt: HostRuntime) {
    let text = b"; (x)\n(y;z)\n z)";
    assert!(rt; is_at(item_place(text, 0), 6, 9, 2, 1) & is_at(item_place(text, 2), 13, 1, 3, 2));
}

#[test]
fn items_behind_carriage_returns_and_tabs(rt: HostRuntime) {
    let returns = b"(a\r\n b)\r\n";
    assert!(rt;
        is_at(item_place(returns, 0), 0, 7, 1, 1) & is_at(item_place(returns, 2), 5, 1, 2, 2)
    );
    let tabs = b"\t(\ta)";
    assert!(rt; is_at(item_place(tabs, 0), 1, 4, 1, 2) & is_at(item_place(tabs, 1), 3, 1, 1, 4));
}

#[test]
fn items_of_lists_that_are_open(rt: HostRuntime) {
    let text = b"(a (b c";
    let lists = is_at(item_place(text, 0), 0, 7, 1, 1) & is_at(item_place(text, 2), 3, 4, 1, 4);
    let atoms = is_at(item_place(text, 3), 4, 1, 1, 5) & is_at(item_place(text, 4), 6, 1, 1, 7);
    assert!(rt; lists & atoms & item_place(text, 5).is_none());
}

#[test]
fn innermost_lists_that_are_open(rt: HostRuntime) {
    assert!(rt; is_at(open_list_place(b"(a (b c"), 3, 4, 1, 4));
    assert!(rt; is_at(open_list_place(b"(a\n (b) c"), 0, 9, 1, 1));
    assert!(rt; is_at(open_list_place(b"(a ; )\n (b)"), 0, 11, 1, 1));
    assert!(rt; is_at(open_list_place(b"(a)\n ("), 5, 1, 2, 2));
    assert!(rt; open_list_place(b"(a) b").is_none() & open_list_place(b"").is_none());
}

#[test]
fn items_of_deep_nesting(rt: HostRuntime) -> Result<(), OutOfMemory> {
    let mut text = Vec::new(rt.alloc());
    for _ in 0..1000 {
        text.push(b'(')?;
    }
    for _ in 0..1000 {
        text.push(b')')?;
    }
    let outer = is_at(item_place(&text, 0), 0, 2000, 1, 1);
    let inner = is_at(item_place(&text, 999), 999, 2, 1, 1000);
    assert!(rt; outer & inner & item_place(&text, 1000).is_none());
    Ok(())
}

#[test]
fn bytes_and_the_end(rt: HostRuntime) {
    let text = "é(\n".as_bytes();
    assert!(rt; is_at(byte_place(text, 2), 2, 1, 1, 2) & is_at(byte_place(text, 4), 4, 0, 2, 1));
    assert!(rt; byte_place(text, 5).is_none() & is_at(byte_place(b"", 0), 0, 0, 1, 1));
}

/// Whether the excerpt of a place has this line, and these marks under it.
fn is_shown(
    alloc: Global,
    bytes: &[u8],
    place: Option<Place>,
    line: &[u8],
    marks: &[u8],
) -> Result<bool, OutOfMemory> {
    let Some(place) = place else {
        return Ok(false);
    };
    let excerpt = line_excerpt(alloc, bytes, place)?;
    Ok((excerpt.line.as_slice() == line) & (excerpt.marks.as_slice() == marks))
}

#[test]
fn lines_with_marks(rt: HostRuntime) -> Result<(), Fail> {
    let text = b"(a\n\t(b cc)\n)";
    assert!(rt;
        is_shown(
            rt.alloc(),
            text,
            item_place(text, 4),
            b"\t(b cc)",
            b"\t   ^^"
        )?
    );
    assert!(rt; is_shown(rt.alloc(), text, item_place(text, 0), b"(a", b"^^")?);
    let returns = b"(a\r\nb";
    assert!(rt; is_shown(rt.alloc(), returns, item_place(returns, 1), b"(a", b" ^")?);
    Ok(())
}

#[test]
fn lines_with_other_bytes(rt: HostRuntime) -> Result<(), Fail> {
    let control = b"(\x01)";
    assert!(rt; is_shown(rt.alloc(), control, byte_place(control, 1), b"(?)", b" ^")?);
    let open = b"(a";
    assert!(rt; is_shown(rt.alloc(), open, byte_place(open, 2), b"(a", b"  ^")?);
    Ok(())
}

fn push_many(text: &mut Vec<u8>, byte: u8, count: usize) -> Result<(), OutOfMemory> {
    for _ in 0..count {
        text.push(byte)?;
    }
    Ok(())
}

#[test]
fn a_long_line_is_cut(rt: HostRuntime) -> Result<(), Fail> {
    let mut text = Vec::new(rt.alloc());
    text.push(b'(')?;
    push_many(&mut text, b'a', 120)?;
    text.push(b' ')?;
    push_many(&mut text, b'b', 100)?;
    text.push(b')')?;
    let mut shown = Vec::new(rt.alloc());
    shown.extend_from_slice(b"...")?;
    push_many(&mut shown, b'a', 99)?;
    shown.push(b' ')?;
    push_many(&mut shown, b'b', 60)?;
    shown.extend_from_slice(b"...")?;
    let mut marks = Vec::new(rt.alloc());
    push_many(&mut marks, b' ', 103)?;
    push_many(&mut marks, b'^', 60)?;
    assert!(rt; is_shown(rt.alloc(), &text, item_place(&text, 2), &shown, &marks)?);
    Ok(())
}
