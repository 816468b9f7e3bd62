//! The edges of instructions, and which of them need an `on`.
ghost use Rattle.std.specs.Prelude.{◌≡◌, ◌&&◌, not, codes};
ghost use Rattle.std.specs.List.{list_any};
ghost use Rattle.lc_sexp.specs.Shown.{rest_of};
ghost use Rattle.lc_object_text.specs.ObjectNames.{text_in, items_within};
ghost use Rattle.lc_object_text.specs.Sections.{forms_in, parts_in};
ghost use Rattle.lc_reading.specs.Parts.{tree_of};
ghost use Rattle.lc_reading.specs.Reserved.{is_action_name};
ghost use Rattle.lc_reading.specs.TableView.{listed};
ghost use Rattle.lc_reading.specs.Words.{is};
ghost use Rattle.lc_outline_text.specs.Needs.{code_word, goes_next, branches_off, edges_of, stores, rides, acts, lacks_at, lacks_on};

use lc_object::EdgeKind;
use lc_object_text::{first_text, next_form};
use lc_outline::edge_word;
use lc_reading::{NameTable, Part, behind_word, three, two};
use lc_rider_text::Edges;
use lc_sexp::{Cursor, Item};

/// The text of a part that is an atom; else none.
pub(crate) fn text_of<'a>(part: Part<'a>) -> &'a str
    ensures { result.now ≡ text_in (tree_of part.entry) }
{
    match part.item() {
        Item::Atom(atom) => atom.text(),
        Item::List(_) => "",
    }
}

/// The items of a part that is a list; of an atom none.
pub(crate) fn items_within<'a>(part: Part<'a>) -> Cursor<'a>
    ensures { rest_of result ≡ items_within (tree_of part.entry) }
{
    let Item::List(list) = part.item() else {
        return Cursor::empty();
    };
    list
}

/// What comes after the word in a part that is a list which begins with this word; else nothing.
pub(crate) fn parts_in<'a>(part: Part<'a>, word: &str) -> Cursor<'a>
    ensures { rest_of result ≡ parts_in word.now (tree_of part.entry) }
{
    let Ok(parts) = behind_word(part, word) else {
        return Cursor::empty();
    };
    parts
}

/// The word of an instruction; no text if it has none.
pub(crate) fn code_word<'a>(part: Part<'a>) -> &'a str
    ensures { result.now ≡ code_word (tree_of part.entry) }
{
    first_text(&items_within(part))
}

/// Whether an instruction of this word has one edge.
pub(crate) fn goes_next(word: &str) -> bool
    ensures { result ≡ goes_next word.now }
{
    matches!(word, "load" | "store" | "faa" | "set" | "return")
}

/// Whether an instruction of this word has an edge for when it holds, and one for when it fails.
pub(crate) fn branches_off(word: &str) -> bool
    ensures { result ≡ branches_off word.now }
{
    matches!(word, "cas" | "if")
}

/// The edges of an instruction of this word.
pub(crate) fn edges_of(word: &str) -> Edges
    ensures { result ≡ edges_of word.now }
{
    let two_edges = branches_off(word);
    Edges {
        next: goes_next(word),
        holds: two_edges,
        fails: two_edges,
    }
}

/// Whether an instruction of this word stores at this edge.
pub(crate) fn stores(word: &str, kind: EdgeKind) -> bool
    ensures { result ≡ stores word.now kind }
{
    match kind {
        EdgeKind::Next => matches!(word, "store" | "faa"),
        EdgeKind::Then => word == "cas",
        EdgeKind::Else => false,
    }
}

/// Whether `EDGE (ACTION ..) RIDER ..` has a rider, and is at the edge of this word.
fn rides(word: &str, parts: Cursor<'_>) -> bool
    ensures { result ≡ rides word.now (rest_of parts.entry) }
{
    match three(parts) {
        Ok((edge, _, _, _)) => text_of(edge) == word,
        Err(_) => false,
    }
}

/// Whether an action of this name is built in.
#[tactic(auto, unfolding(lc_reading::specs::Reserved::is_action_name))]
fn is_built_in(name: &str) -> bool
    ensures { result ≡ is_action_name name.now }
{
    matches!(name, "skip" | "enter" | "leave")
}

/// Whether this is the name of one of these actions, and none that is built in.
fn is_declared(actions: &NameTable<'_>, name: &str) -> bool
    ensures { result ≡ (list_any (is name.now) (listed actions.now) && not (is_action_name name.now)) }
{
    actions.contains(name) && !is_built_in(name)
}

/// Whether `EDGE (ACTION ..) ..` names one of these actions, which is not built in, and is at the edge of this word.
fn acts(actions: &NameTable<'_>, word: &str, parts: Cursor<'_>) -> bool
    ensures { result ≡ acts (listed actions.now) word.now (rest_of parts.entry) }
{
    match two(parts) {
        Ok((edge, call, _)) => text_of(edge) == word && is_declared(actions, code_word(call)),
        Err(_) => false,
    }
}

/// Whether an edge of an instruction with this word lacks an `on` that it needs, among the lists that come next.
fn lacks_at(actions: &NameTable<'_>, word: &str, list: Cursor<'_>, kind: EdgeKind) -> bool
    ensures { result ≡ lacks_at (listed actions.now) word.now (forms_in (codes "on") (rest_of list.entry)) kind }
{
    let at = edge_word(kind);
    let mut rest = list;
    let mut is_needed = stores(word, kind);
    let mut is_there = false;
    'lists: loop {
        let Some(parts) = next_form(&mut rest, "on", false) else {
            return is_needed && !is_there;
        };
        is_needed = is_needed || rides(at, parts);
        is_there = is_there || acts(actions, at, parts);
    }
}

/// Whether some edge of an instruction with this word lacks an `on` that it needs, among the lists that come next.
pub(crate) fn lacks_on(actions: &NameTable<'_>, word: &str, list: Cursor<'_>) -> bool
    ensures { result ≡ lacks_on (listed actions.now) word.now (forms_in (codes "on") (rest_of list.entry)) }
{
    if goes_next(word) && lacks_at(actions, word, list, EdgeKind::Next) {
        return true;
    }
    branches_off(word)
        && (lacks_at(actions, word, list, EdgeKind::Then)
            || lacks_at(actions, word, list, EdgeKind::Else))
}
