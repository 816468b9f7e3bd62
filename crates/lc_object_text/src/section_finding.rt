//! Where the parts of a file begin.
ghost use Rattle.std.specs.Prelude.{◌≡◌, ◌≤◌};
ghost use Rattle.lc_sexp.specs.Shown.{rest_of, number_of};
ghost use Rattle.lc_object_text.specs.ObjectNames.{first_text, within_first, later, parts_in_first};
ghost use Rattle.lc_object_text.specs.Sections.{items_in_first, behind_first, behind_forms, sections_at};
ghost use Rattle.lc_object_text.specs.Seen.{items_of, sections_view, size, IsNextForm};

use crate::sections::Sections;
use lc_sexp::{Cursor, Item};

/// The items of a list after the first.
pub fn behind_first<'a>(list: Cursor<'a>) -> Cursor<'a>
    ensures items { items_of result ≡ behind_first (items_of list.entry) }
    ensures rest { rest_of result ≡ later (rest_of list.entry) }
    ensures size { size result ≤ size list.entry }
{
    let mut rest = list;
    let _ = rest.item();
    rest
}

/// What comes after the word in the next item, if that is a list that begins with this word.
pub fn items_in_first<'a>(mut list: Cursor<'a>, word: &str) -> Cursor<'a>
    ensures items { items_of result ≡ items_in_first word.now (number_of list.entry) (rest_of list.entry) }
    ensures rest { rest_of result ≡ parts_in_first word.now (rest_of list.entry) }
    ensures size { size result ≤ size list.entry }
{
    let Ok(items) = list.form(word) else {
        return Cursor::empty();
    };
    items
}

/// What comes after the lists at the beginning that begin with a word.
fn behind_forms<'a>(list: Cursor<'a>, word: &str) -> Cursor<'a>
    ensures items { items_of result ≡ behind_forms word.now (items_of list.entry) }
    ensures size { size result ≤ size list.entry }
{
    let mut rest = list;
    'lists: loop {
        if !rest.is_at_form(word) {
            return rest;
        }
        let Ok(_) = rest.item() else {
            return rest;
        };
    }
}

/// The sections of the file of these forms. If one is missing nothing is left in it.
pub fn find_sections<'a>(forms: Cursor<'a>) -> Sections<'a>
    ensures { sections_view result ≡ sections_at (items_of forms.entry) }
{
    let specification = items_in_first(forms, "spec");
    let object = items_in_first(behind_first(forms), "object");
    let abstracts = behind_first(specification);
    let arrays = behind_first(object);
    let auxiliaries = behind_forms(arrays, "array");
    let invariant = behind_forms(behind_first(auxiliaries), "action");
    Sections {
        abstracts,
        operations: behind_first(abstracts),
        object,
        arrays,
        auxiliaries,
        invariant,
        bodies: behind_first(behind_first(invariant)),
    }
}

/// The text of the next item, if it is an atom; else none.
pub fn first_text<'a>(list: &Cursor<'a>) -> &'a str
    ensures { result.now ≡ first_text (rest_of list.now) }
{
    let mut ahead = *list;
    match ahead.item() {
        Ok(Item::Atom(atom)) => atom.text(),
        _ => "",
    }
}

/// The items of the next item, if it is a list.
pub fn within_first<'a>(mut list: Cursor<'a>) -> Cursor<'a>
    ensures rest { rest_of result ≡ within_first (rest_of list.entry) }
    ensures size { size result ≤ size list.entry }
{
    let Ok(items) = list.list() else {
        return Cursor::empty();
    };
    items
}

/// The parts of the next list that begins with a word, after the word. If some are expected, the next item is taken
/// for one, whatever it is.
pub fn next_form<'a>(list: &mut Cursor<'a>, word: &str, some: bool) -> Option<Cursor<'a>>
    ensures { IsNextForm some word.now list.old result list.new }
{
    if !some {
        return list.form(word).ok();
    }
    let parts = items_in_first(*list, word);
    match list.item() {
        Ok(_) => Some(parts),
        Err(_) => None,
    }
}
