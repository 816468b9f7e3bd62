//! The names that a file declares, and which of them may be meant by one that it does not declare.
use crate::around::list_count;
use crate::lists::{List, Lists};
use crate::nearness::distance;
use crate::table::{beside, is_among};

/// What a name is the name of.
#[derive(Clone, Copy, PartialEq, Eq)]
pub(crate) enum Sort {
    Column,
    Array,
    Point,
    Action,
    Operation,
    Choice,
    /// A local, an argument, a parameter, or a variable.
    Variable,
}

impl Sort {
    /// What a name of the sort is called, before the name.
    pub(crate) fn noun(self) -> &'static str {
        match self {
            Sort::Column => "the column ",
            Sort::Array => "the array ",
            Sort::Point => "the point ",
            Sort::Action => "the action ",
            Sort::Operation => "the operation ",
            Sort::Choice => "the choice ",
            Sort::Variable => "the name ",
        }
    }
}

/// The columns that each object has beside its own.
static SYSTEM_COLUMNS: [&str; 12] = [
    "pend", "op", "arg1", "arg2", "arg3", "rep1", "rep2", "rep3", "noted", "note1", "note2",
    "note3",
];

/// The sorts of the names that lists declare as their second items, by the words with which they begin.
static SECONDS: [(&str, Sort); 7] = [
    ("array", Sort::Array),
    ("point", Sort::Point),
    ("action", Sort::Action),
    ("op", Sort::Operation),
    ("choice", Sort::Choice),
    ("forall", Sort::Variable),
    ("exists", Sort::Variable),
];

/// The items with which the names begin that lists declare in a row, and the sort of these names.
static ROWS: [(&str, (u64, Sort)); 6] = [
    ("action", (4, Sort::Variable)),
    ("op", (4, Sort::Variable)),
    ("choice", (4, Sort::Variable)),
    ("body", (4, Sort::Variable)),
    ("vars", (2, Sort::Variable)),
    ("cols", (2, Sort::Column)),
];

/// A name that is looked for, and what was found.
#[derive(Clone, Copy)]
pub(crate) struct Sought<'a> {
    name: &'a str,
    sort: Sort,
    /// The list that declares it.
    declared: Option<List<'a>>,
    /// The name of the sort that is nearest to it, of those that are near.
    nearest: Option<&'a str>,
    distance: usize,
}

/// Names are near if the difference is fewer letters than this.
const FAR: usize = 3;

impl<'a> Sought<'a> {
    /// The list that declares the name, if there is one.
    pub(crate) fn declared(&self) -> Option<List<'a>> {
        self.declared
    }

    /// The declared name that is nearest to it, if one is near and it is not declared itself.
    pub(crate) fn nearest(&self) -> Option<&'a str> {
        match self.declared {
            Some(_) => None,
            None => self.nearest,
        }
    }

    /// Looks at a name of a sort, if that is the one that is looked for.
    fn compare(&mut self, sort: Sort, name: &'a str) {
        if sort != self.sort {
            return;
        }
        if let Some(distance) = distance(self.name, name) {
            if distance < self.distance {
                self.distance = distance;
                self.nearest = Some(name);
            }
        }
    }

    /// Looks at a name that a list declares.
    fn look_at(&mut self, list: List<'a>, sort: Sort, name: &'a str) {
        if sort == self.sort && name == self.name && self.declared.is_none() {
            self.declared = Some(list);
        }
        self.compare(sort, name);
    }

    /// Looks at the names that a list declares in a row.
    fn look_at_row(&mut self, list: List<'a>, first: u64, sort: Sort) {
        let Some(place) = list.item(if first == 2 {
            0
        } else {
            first.saturating_sub(1)
        }) else {
            return;
        };
        let count = list_count(list.bytes, place);
        for number in 0..count as u64 {
            let name = list.atom(first.saturating_add(number));
            self.look_at(list, sort, name);
        }
    }

    /// Looks at all names that a list declares.
    fn look_in(&mut self, list: List<'a>) {
        if let Some(sort) = beside(&SECONDS, list.word) {
            self.look_at(list, sort, list.atom(2));
        }
        if let Some((first, sort)) = beside(&ROWS, list.word) {
            if sort == self.sort {
                self.look_at_row(list, first, sort);
            }
        }
        if is_among(&["array", "aux", "abstract"], list.outer) {
            self.look_at(list, Sort::Column, list.word);
        }
    }

    /// Looks at the names that each development has.
    fn look_at_columns(&mut self) {
        for name in &SYSTEM_COLUMNS {
            self.compare(Sort::Column, name);
        }
    }
}

/// What a file declares of a name that is looked for as one of a sort.
pub(crate) fn seek<'a>(bytes: &'a [u8], sort: Sort, name: &'a str) -> Sought<'a> {
    let mut sought = Sought {
        name,
        sort,
        declared: None,
        nearest: None,
        distance: FAR,
    };
    let mut lists = Lists::new(bytes);
    for _ in 0..bytes.len() {
        let Some(list) = lists.next() else {
            break;
        };
        sought.look_in(list);
    }
    sought.look_at_columns();
    sought
}

/// Whether a name is that of a column, as far as a file declares it.
pub(crate) fn is_column(bytes: &[u8], name: &str) -> bool {
    is_among(&SYSTEM_COLUMNS, name) || seek(bytes, Sort::Column, name).declared().is_some()
}

/// Whether a file has a list that begins with this word.
pub(crate) fn has_list(bytes: &[u8], word: &str) -> bool {
    let mut lists = Lists::new(bytes);
    for _ in 0..bytes.len() {
        match lists.next() {
            Some(list) if list.word == word => return true,
            Some(_) => {}
            None => return false,
        }
    }
    false
}
