//! Names in a row, found by a hash.
ghost use Rattle.std.specs.Prelude.{◌≡◌, ◌<◌, ◌++◌, ◌∷◌, [], List, length, ℕ, true, IfOk, OnOk, Some, None, if◌then◌else◌};
ghost use Rattle.std.specs.Option.{option_or};
ghost use Rattle.std.specs.Map.{lookup};
ghost use Rattle.lc_reading.specs.Words.{is};
ghost use Rattle.lc_reading.specs.Entries.{name_at, names_at, are_within};
ghost use Rattle.lc_reading.specs.Listed.{place_of};

use crate::lists::{next_part, two};
use crate::near::NameMap;
use crate::part::Part;
use lc_base::OutOfMemory;
use lc_sexp::{Cursor, Item};
use std::alloc::Global;
use std::hash::BuildHasherDefault;

/// Names in a row, and for each the place of its first occurrence. The letters of a name that occurs more than once are
/// held once, by the number of its entry.
pub struct NameTable<'a> {
    numbers: Vec<u32>,
    places: NameMap<'a, u32>,
    ghost within: { are_within places.entries numbers.items ≡ true },
    ghost placed: { (w : List ℕ) → lookup (λ name. is w name.now) places.entries ≡ place_of (names_at places.entries numbers.items) w },
}

impl Drop for NameTable<'_> {
    fn drop(self) {
        let NameTable {
            numbers: _,
            places: _,
        } = self;
    }
}

/// A count of names, in 32 bits. No file has more; more are refused with `OutOfMemory`.
fn short(count: usize) -> Result<u32, OutOfMemory>
    ensures { IfOk result (λ n. n ≡ count) }
{
    match u32::try_from(count) {
        Ok(count) => Ok(count),
        Err(_) => Err(OutOfMemory),
    }
}

/// The number of the entry of a name, which is entered with this place if it has none.
fn entry_of<'a>(
    places: &mut NameMap<'a, u32>,
    name: &'a str,
    place: u32,
) -> Result<u32, OutOfMemory>
    ensures placed { OnOk result ((w : List ℕ) →
        lookup (λ n. is w n.now) places.new.entries ≡ option_or (lookup (λ n. is w n.now) places.old.entries) (if is w name.now then Some place else None)) }
    ensures named { IfOk result (λ k. name_at places.new.entries k ≡ name.now) }
    ensures within { IfOk result (λ k. k < length places.new.entries) }
    ensures kept { OnOk result ((ks : List ℕ) → are_within places.old.entries ks ≡ true → names_at places.new.entries ks ≡ names_at places.old.entries ks) }
    ensures kept_within { OnOk result ((ks : List ℕ) → are_within places.old.entries ks ≡ true → are_within places.new.entries ks ≡ true) }
{
    if let Some(number) = places.get_index_of(name) {
        return short(number);
    }
    let number = short(places.len())?;
    places.insert(name, place)?;
    Ok(number)
}

/// Enters a name after those of these parts of a table.
fn enter_in<'a>(
    numbers: &mut Vec<u32>,
    places: &mut NameMap<'a, u32>,
    name: &'a str,
) -> Result<(), OutOfMemory>
    requires within { are_within places.old.entries numbers.old.items ≡ true }
    requires placed { (w : List ℕ) → lookup (λ n. is w n.now) places.old.entries ≡ place_of (names_at places.old.entries numbers.old.items) w }
    ensures within { OnOk result (are_within places.new.entries numbers.new.items ≡ true) }
    ensures placed { OnOk result ((w : List ℕ) → lookup (λ n. is w n.now) places.new.entries ≡ place_of (names_at places.new.entries numbers.new.items) w) }
    ensures names { OnOk result (names_at places.new.entries numbers.new.items ≡ names_at places.old.entries numbers.old.items ++ name.now ∷ []) }
{
    let place = short(numbers.len())?;
    let number = entry_of(places, name, place)?;
    numbers.push(number)?;
    Ok(())
}

impl<'a> NameTable<'a> {
    ghost use Rattle.std.specs.Prelude.{◌≡◌, ◌++◌, ◌∷◌, [], length, IfOk};
    ghost use Rattle.std.specs.List.{list_any};
    ghost use Rattle.lc_reading.specs.Words.{is};
    ghost use Rattle.lc_sexp.specs.Shown.{rest_of};
    ghost use Rattle.lc_reading.specs.Listed.{place_of, declared_by, names_among};
    ghost use Rattle.lc_reading.specs.Parts.{tree_of};
    ghost use Rattle.lc_reading.specs.Rows.{first_name, second_name};
    ghost use Rattle.lc_reading.specs.TableView.{listed};

    /// No names.
    pub fn new(alloc: Global) -> NameTable<'a>
        ensures { listed result ≡ [] }
    {
        NameTable {
            numbers: Vec::new(alloc),
            places: NameMap::with_hasher(alloc, BuildHasherDefault::new()),
        }
    }

    /// These names, with room for `more`, so that none has to move while they are entered.
    pub fn with_room(self, more: usize) -> Result<NameTable<'a>, OutOfMemory>
        ensures { IfOk result (λ names. listed names ≡ listed self.entry) }
    {
        let NameTable {
            mut numbers,
            mut places,
        } = self;
        numbers.reserve(more)?;
        places.reserve(more)?;
        Ok(NameTable { numbers, places })
    }

    /// The names, followed by one more.
    pub fn enter(self, name: &'a str) -> Result<NameTable<'a>, OutOfMemory>
        ensures { IfOk result (λ names. listed names ≡ listed self.entry ++ name.now ∷ []) }
    {
        let NameTable {
            mut numbers,
            mut places,
        } = self;
        enter_in(&mut numbers, &mut places, name)?;
        Ok(NameTable { numbers, places })
    }

    /// The names, followed by those that the items left in a list declare. The table is taken apart once, and not for each
    /// of the names.
    pub fn enter_all(self, list: Cursor<'a>) -> Result<NameTable<'a>, OutOfMemory>
        ensures { IfOk result (λ names. listed names ≡ listed self.entry ++ names_among (rest_of list.entry)) }
    {
        let NameTable {
            mut numbers,
            mut places,
        } = self;
        numbers.reserve(list.len())?;
        places.reserve(list.len())?;
        let mut rest = list;
        'items: loop {
            let Ok(part) = next_part(&mut rest) else {
                return Ok(NameTable { numbers, places });
            };
            let Item::Atom(atom) = part.item() else {
                continue 'items;
            };
            enter_in(&mut numbers, &mut places, atom.text())?;
        }
    }

    /// The names, followed by the one that an item declares.
    pub fn enter_part(self, part: Part<'a>) -> Result<NameTable<'a>, OutOfMemory>
        ensures { IfOk result (λ names. listed names ≡ listed self.entry ++ declared_by (tree_of part.entry)) }
    {
        match part.item() {
            Item::Atom(atom) => self.enter(atom.text()),
            Item::List(_) => Ok(self),
        }
    }

    /// The names, followed by the one that a list declares by its first item.
    pub fn enter_first(self, part: Part<'a>) -> Result<NameTable<'a>, OutOfMemory>
        ensures { IfOk result (λ names. listed names ≡ listed self.entry ++ first_name (tree_of part.entry)) }
    {
        let mut list = match part.item() {
            Item::Atom(_) => return Ok(self),
            Item::List(list) => list,
        };
        match next_part(&mut list) {
            Ok(name) => self.enter_part(name),
            Err(_) => Ok(self),
        }
    }

    /// The names, followed by the one that a list declares by the item after its word.
    pub fn enter_second(self, part: Part<'a>) -> Result<NameTable<'a>, OutOfMemory>
        ensures { IfOk result (λ names. listed names ≡ listed self.entry ++ second_name (tree_of part.entry)) }
    {
        let list = match part.item() {
            Item::Atom(_) => return Ok(self),
            Item::List(list) => list,
        };
        match two(list) {
            Ok((_, name, _)) => self.enter_part(name),
            Err(_) => Ok(self),
        }
    }

    /// How many names there are, each counted as often as it occurs.
    pub fn len(&self) -> usize
        ensures { result ≡ length (listed self.now) }
    {
        self.numbers.len()
    }

    /// The place at which a name occurs first.
    pub fn place(&self, name: &str) -> Option<usize>
        ensures { result ≡ place_of (listed self.now) name.now }
    {
        let place = self.places.get(name)?;
        Some(*place as usize)
    }

    /// The place at which a name occurs first; it is looked for at this place, and only then among all.
    pub fn place_from(&self, place: usize, name: &str) -> Option<usize>
        ensures { result ≡ place_of (listed self.now) name.now }
    {
        if let Some(number) = self.numbers.get(place) {
            if let Some((found, first)) = self.places.get_index(*number as usize) {
                if *found == name {
                    return Some(*first as usize);
                }
            }
        }
        self.place(name)
    }

    /// Whether a name is there.
    pub fn contains(&self, name: &str) -> bool
        ensures { result ≡ list_any (is name.now) (listed self.now) }
    {
        self.place(name).is_some()
    }
}
