//! The values of a JSON text, looked up in its tokens: no tree of them is made, so the memory that a text takes goes by its length,
//! whatever it holds.
ghost use Rattle.std.specs.Prelude.{◌≡◌, ℕ, List, [], true, false, ◌∷◌, ◌&&◌, ◌<◌, IfOk, OnSome, MatchOption, Some, None, length, nat_le, is_some, option_map};
ghost use Rattle.json.specs.Json.{Json};
ghost use Rattle.json.specs.Tree.{depth};
ghost use Rattle.json.specs.Find.{BeginsWith};
ghost use Rattle.serde_json.specs.Data.{object};
ghost use Rattle.serde_json.specs.Find.{as_number, as_str, as_array};
ghost use Rattle.serde_json.specs.Read.{of_json, number_of, number_from};
ghost use Rattle.serde_json.specs.View.{number_view};
ghost use Rattle.lc_hist.specs.JsonItems.{data_at, values_at, AreTokensOf};
ghost use Rattle.lc_hist.specs.JsonHistories.{parts_in};
ghost use Rattle.lc_hist.specs.JsonRecorded.{recorded_in};
ghost use Rattle.lc_hist.specs.JsonSeen.{parts_view, recorded_view, members_with, HasNoParts, HasValue, IsNoJson};
ghost use Rattle.lc_hist.specs.JsonValues.{values_in};

use fast_float::Numeral;
use json::{Element, Error, Scratch, Tape};
use lc_base::{FILE_LIMIT, OutOfMemory};
use serde_json::Number;
use std::alloc::Global;
use std::marker::Model;

/// As deep as arrays and objects may nest.
const MAX_DEPTH: usize = 127;

/// A value; a clause sees the tokens from where it begins.
#[derive(Drop)]
pub(crate) struct Item<'t, 'a> {
    element: Element<'t, 'a>,
}

impl<'t, 'a> Model for Item<'t, 'a> {
    ghost use Rattle.std.specs.Prelude.{List};
    ghost use Rattle.json.specs.Token.{Token, tokens_code};
    ghost use Rattle.lc_hist.specs.JsonItems.{IsData};

    ghost Value = { List Token };

    ghost coded = { tokens_code };

    ghost view = { λ a. a.element };

    ghost invariant = { λ a. IsData a.element };
}

/// The values of an array that are still to come; a clause sees the tokens from where the next begins.
#[derive(Drop)]
pub(crate) struct Items<'t, 'a> {
    items: json::Items<'t, 'a>,
}

impl<'t, 'a> Model for Items<'t, 'a> {
    ghost use Rattle.std.specs.Prelude.{List};
    ghost use Rattle.json.specs.Token.{Token, tokens_code};
    ghost use Rattle.lc_hist.specs.JsonItems.{AreData};

    ghost Value = { List Token };

    ghost coded = { tokens_code };

    ghost view = { λ a. a.items };

    ghost invariant = { λ a. AreData a.items };
}

/// The values of the events, and those of the order.
#[derive(Drop)]
pub(crate) struct Parts<'t, 'a> {
    pub(crate) events: Items<'t, 'a>,
    pub(crate) order: Items<'t, 'a>,
}

/// The values of the events, and those of the order, if there is one.
#[derive(Drop)]
pub(crate) struct Recorded<'t, 'a> {
    pub(crate) events: Items<'t, 'a>,
    pub(crate) order: Option<Items<'t, 'a>>,
}

/// A number without a sign.
fn unsigned(numeral: &Numeral<'_>) -> Option<Number>
    ensures { option_map number_view result ≡ number_from false numeral.now }
{
    match numeral.to_u64() {
        Some(number) => Number::from_u128(u128::from(number)),
        None => Number::from_f64(numeral.to_float::<f64>(false)),
    }
}

/// A number after its sign.
fn negative(numeral: &Numeral<'_>) -> Option<Number>
    ensures { option_map number_view result ≡ number_from true numeral.now }
{
    match numeral.to_i64(true) {
        Some(number) if number < 0 => Number::from_i128(i128::from(number)),
        _ => Number::from_f64(numeral.to_float::<f64>(true)),
    }
}

/// The number that a text writes, if it is one that a float holds.
fn number(text: &str) -> Option<Number>
    ensures { option_map number_view result ≡ number_of text.now }
{
    let bytes = text.as_bytes();
    if !bytes.is_empty() && bytes[0] == b'-' {
        negative(&Numeral::scan(&bytes[1..]))
    } else {
        unsigned(&Numeral::scan(bytes))
    }
}

/// Whether each number of the value is one that a float holds, and its arrays and objects nest at most so deep.
fn fits(value: &Element<'_, '_>, levels: usize) -> bool
    ensures { (j : Json) → BeginsWith value.now j → result ≡ (is_some (of_json j) && nat_le (depth j) levels) }
{
    if let Some(text) = value.as_number() {
        return number(text).is_some();
    }
    if let Some(mut items) = value.items() {
        if levels == 0 {
            return false;
        }
        'items: while let Some(item) = items.next() {
            if !fits(&item, levels - 1) {
                return false;
            }
        }
        return true;
    }
    if let Some(mut members) = value.members() {
        if levels == 0 {
            return false;
        }
        'members: while let Some((_, member)) = members.next() {
            if !fits(&member, levels - 1) {
                return false;
            }
        }
    }
    true
}

/// The tokens of a text within the limit, if it is UTF-8 and of the grammar.
pub(crate) fn tokens_of<'a>(
    alloc: Global,
    bytes: &'a [u8],
    scratch: &'a mut Scratch,
) -> Result<Option<Tape<'a>>, OutOfMemory>
    ensures { IfOk result (λ found. MatchOption found (IsNoJson bytes.now) (λ tape. AreTokensOf bytes.now tape)) }
{
    if bytes.len() as u64 > FILE_LIMIT {
        return Ok(None);
    }
    let Ok(text) = simdutf8::basic::from_utf8(bytes) else {
        return Ok(None);
    };
    match Tape::parse(text, scratch, Vec::new(alloc)) {
        Ok(tape) => Ok(Some(tape)),
        Err(error) if error == Error::OutOfMemory => Err(OutOfMemory),
        Err(_) => Ok(None),
    }
}

/// The value of a text, if it is JSON.
pub(crate) fn root<'t, 'a>(tape: &'t Tape<'a>) -> Option<Item<'t, 'a>>
    ensures { (bytes : List ℕ) → AreTokensOf bytes tape.now → MatchOption result (IsNoJson bytes) (λ value. HasValue bytes (data_at value)) }
{
    let element = tape.root();
    if fits(&element, MAX_DEPTH) {
        Some(Item { element })
    } else {
        None
    }
}

impl<'t, 'a> Item<'t, 'a> {
    /// Its number, if it is one.
    pub(crate) fn as_number(&self) -> Option<Number>
        ensures { option_map number_view result ≡ as_number (data_at self.now) }
    {
        number(self.element.as_number()?)
    }

    /// Its text, if it is one.
    pub(crate) fn as_str(&self) -> Option<&'a str>
        ensures { option_map (λ s. s.now) result ≡ as_str (data_at self.now) }
    {
        self.element.as_str()
    }

    /// Its values, if it is an array.
    pub(crate) fn items(&self) -> Option<Items<'t, 'a>>
        ensures { option_map values_at result ≡ option_map values_in (as_array (data_at self.now)) }
    {
        Some(Items {
            items: self.element.items()?,
        })
    }

    /// Its values under the keys `events` and `order`, as far as it has these, if it is an object without another key.
    fn keyed(&self) -> Option<(Option<Item<'t, 'a>>, Option<Item<'t, 'a>>)>
        ensures { MatchOption result (HasNoParts (data_at self.now)) (λ keyed. data_at self.now ≡ object (members_with (option_map data_at keyed.0) (option_map data_at keyed.1))) }
    {
        let mut members = self.element.members()?;
        let mut events = None;
        let mut order = None;
        'members: while let Some((key, element)) = members.next() {
            match key {
                "events" => events = Some(Item { element }),
                "order" => order = Some(Item { element }),
                _ => return None,
            }
        }
        Some((events, order))
    }

    /// The values under the keys `events` and `order`, if these are arrays and there is no other key.
    pub(crate) fn parts(&self) -> Option<Parts<'t, 'a>>
        ensures { option_map parts_view result ≡ parts_in (data_at self.now) }
    {
        let (events, order) = self.keyed()?;
        Some(Parts {
            events: events?.items()?,
            order: order?.items()?,
        })
    }

    /// The same, if the key `order` may be left out.
    pub(crate) fn recorded(&self) -> Option<Recorded<'t, 'a>>
        ensures { option_map recorded_view result ≡ recorded_in (data_at self.now) }
    {
        let (events, order) = self.keyed()?;
        let events = events?.items()?;
        match order {
            None => Some(Recorded {
                events,
                order: None,
            }),
            Some(order) => Some(Recorded {
                events,
                order: Some(order.items()?),
            }),
        }
    }
}

impl<'t, 'a> Items<'t, 'a> {
    /// The next value, if there is one more.
    pub(crate) fn next(&mut self) -> Option<Item<'t, 'a>>
        ensures value { MatchOption result (values_at self.old ≡ []) (λ item. values_at self.old ≡ data_at item ∷ values_at self.new) }
        ensures shorter { OnSome result (length self.new < length self.old) }
    {
        let element = self.items.next()?;
        Some(Item { element })
    }
}
