//! The tokens of a text that is written as programs write it: spaces come after commas and colons alone, no text has
//! escapes, and numbers are integers. If a text is of another form nothing is found, and the values of the text say what is
//! wrong.
ghost use Rattle.std.specs.Prelude.{◌≡◌, ◌+◌, ◌<◌, ◌≤◌, ℕ, ◌∷◌, ◌++◌, Some, IsTrue, IfSome, length, drop, slice_index, option_and_then};
ghost use Rattle.json.specs.Align.{is_blank};
ghost use Rattle.json.specs.Lex.{class};
ghost use Rattle.serde_json.specs.Data.{unsigned};
ghost use Rattle.serde_json.specs.Find.{as_i64, as_u64};
ghost use Rattle.lc_hist.specs.JsonCursor.{tokens_at, begins_at, closes_at, IsPlain, ArePlain, Ends, ArePlainBetween, IsNumeralBetween};
ghost use Rattle.lc_hist.specs.JsonValues.{client_within};
ghost use Rattle.lc_hist.specs.declared.cursor.Place.{Place};
ghost use Rattle.lc_hist.specs.declared.cursor.Place.TheVariants.{AfterValue};

use crate::tokens::are_same;
use lc_history::CLIENT_LIMIT;
use std::marker::Model;

/// Where the next token is.
#[derive(Clone, Copy)]
enum Place {
    /// After a bracket that opens, or a colon.
    Fresh,
    AfterValue,
    AfterComma,
}

impl Place {
    fn may_begin(self) -> bool
        ensures { result ≡ begins_at self }
    {
        matches!(self, Place::Fresh | Place::AfterComma)
    }

    fn may_close(self) -> bool
        ensures { result ≡ closes_at self }
    {
        matches!(self, Place::Fresh | Place::AfterValue)
    }
}

/// A text, and where in it the next token is. A clause sees the tokens that are still to come.
#[derive(Drop)]
pub(crate) struct Cursor<'a> {
    text: &'a [u8],
    at: usize,
    place: Place,
}

impl<'a> Model for Cursor<'a> {
    ghost use Rattle.std.specs.Prelude.{List, drop};
    ghost use Rattle.json.specs.Token.{Token, tokens_code};
    ghost use Rattle.lc_hist.specs.JsonCursor.{tokens_at};

    ghost Value = { List Token };

    ghost coded = { tokens_code };

    ghost view = { λ a. tokens_at a.place (drop a.at a.text.now) };
}

fn is_space(byte: u8) -> bool
    ensures { result ≡ is_blank (class byte) }
{
    (byte == b' ') | (byte == b'\t') | (byte == b'\n') | (byte == b'\r')
}

fn is_plain(byte: u8) -> bool
    ensures { IsTrue result → IsPlain byte }
{
    byte >= b' ' && byte != b'"' && byte != b'\\'
}

/// Where the spaces end that begin at a place.
fn spaces_end(text: &[u8], from: usize) -> usize
    ensures { (p : Place) → tokens_at p (drop result text.now) ≡ tokens_at p (drop from text.now) }
{
    let mut end = from;
    'spaces: while end < text.len() && is_space(text[end]) {
        end += 1;
    }
    end
}

/// Where the plain bytes end that begin at a place.
fn plain_end(text: &[u8], from: usize) -> usize
    ensures { ArePlainBetween text.now from result }
{
    let mut end = from;
    'plain: while end < text.len() && is_plain(text[end]) {
        end += 1;
    }
    end
}

/// Whether an item ends with a comma or a bracket at a place.
fn ends_item(text: &[u8], at: usize) -> bool
    ensures { IsTrue result → (at < length text.now) × Ends (slice_index text.now at) }
{
    if at >= text.len() {
        return false;
    }
    if text[at] == b',' {
        return true;
    }
    text[at] == b']'
}

/// What comes after a value that ends at a place, and after its comma.
fn behind(text: &[u8], end: usize) -> (usize, Place)
    ensures { tokens_at result.1 (drop result.0 text.now) ≡ tokens_at AfterValue (drop end text.now) }
{
    if end < text.len() && text[end] == b',' {
        (spaces_end(text, end + 1), Place::AfterComma)
    } else {
        (end, Place::AfterValue)
    }
}

/// Whether digits from one place to another are few enough: there is one, or the first is no 0.
fn are_short(text: &[u8], from: usize, end: usize) -> bool
    requires { from ≤ end }
    ensures { IsTrue result → slice_index text.now from ≡ 48 → end ≤ from + 1 }
{
    if end - from <= 1 {
        return true;
    }
    if from >= text.len() || text[from] == b'0' {
        return false;
    }
    true
}

/// The number that is written from a place on, and where it ends.
fn numeral(text: &[u8], from: usize) -> Option<(u64, usize)>
    ensures { IfSome result (λ found. IsNumeralBetween text.now from found.0 found.1) }
{
    let mut number: u64 = 0;
    let mut end = from;
    'digits: while end < text.len() && b'0' <= text[end] && text[end] <= b'9' {
        if number >= 100_000_000_000_000_000 {
            return None;
        }
        number = 10 * number + u64::from(text[end] - b'0');
        end += 1;
    }
    if end == from || !are_short(text, from, end) || !ends_item(text, end) {
        return None;
    }
    Some((number, end))
}

/// A number that has no sign, as one that may have one.
fn as_integer(number: u64) -> Option<i64>
    ensures { IfSome result (λ z. as_i64 (unsigned number) ≡ Some z) }
{
    i64::try_from(number).ok()
}

/// A number as that of a client.
fn as_client(number: u64) -> Option<u32>
    ensures { IfSome result (λ c. option_and_then client_within (as_u64 (unsigned number)) ≡ Some c) }
{
    if number <= u64::from(CLIENT_LIMIT) {
        Some(number as u32)
    } else {
        None
    }
}

/// The bytes of the text in quotes that begins at a place, and where it ends.
fn quoted(text: &[u8], at: usize) -> Option<(&[u8], usize)>
    ensures { IfSome result (λ found. ArePlain found.0.now × (drop at text.now ≡ 34 ∷ (found.0.now ++ 34 ∷ drop found.1 text.now))) }
{
    if at >= text.len() || text[at] != b'"' {
        return None;
    }
    let start = at + 1;
    let end = plain_end(text, start);
    if end >= text.len() || text[end] != b'"' {
        return None;
    }
    Some((&text[start..end], end + 1))
}

impl<'a> Cursor<'a> {
    ghost use Rattle.std.specs.Prelude.{◌≡◌, ℕ, List, [], ◌∷◌, Some, IsTrue, IfSome, false};
    ghost use Rattle.json.specs.Json.{after_end_array, read_key};
    ghost use Rattle.json.specs.Lex.{tokens};
    ghost use Rattle.json.specs.Token.{begin_array, begin_object, end_object, number, string};
    ghost use Rattle.serde_json.specs.Data.{unsigned, negative};
    ghost use Rattle.serde_json.specs.Find.{as_str};
    ghost use Rattle.serde_json.specs.Read.{number_of};
    ghost use Rattle.lc_hist.specs.JsonTokens.{Says};
    ghost use Rattle.lc_hist.specs.JsonValues.{number_in, client_in};

    /// The tokens of a text.
    pub(crate) fn new(text: &'a [u8]) -> Cursor<'a>
        ensures { result ≡ tokens text.now }
    {
        Cursor {
            text,
            at: spaces_end(text, 0),
            place: Place::Fresh,
        }
    }

    /// Whether an array begins next; if so, its bracket is taken.
    pub(crate) fn begins_array(&mut self) -> bool
        ensures { IsTrue result → self.old ≡ begin_array ∷ self.new }
    {
        let text = self.text;
        if !self.place.may_begin() || self.at >= text.len() || text[self.at] != b'[' {
            return false;
        }
        self.at += 1;
        self.place = Place::Fresh;
        true
    }

    /// Whether an array ends next; if so, its bracket is taken.
    pub(crate) fn take_end_array(&mut self) -> bool
        ensures taken { IsTrue result → after_end_array self.old ≡ Some self.new }
        ensures left { result ≡ false → self.new ≡ self.old }
    {
        let text = self.text;
        if !self.place.may_close() || self.at >= text.len() || text[self.at] != b']' {
            return false;
        }
        let next = behind(text, self.at + 1);
        self.at = next.0;
        self.place = next.1;
        true
    }

    /// Whether an object begins next; if so, its brace is taken.
    pub(crate) fn begins_object(&mut self) -> bool
        ensures { IsTrue result → self.old ≡ begin_object ∷ self.new }
    {
        let text = self.text;
        if !self.place.may_begin() || self.at >= text.len() || text[self.at] != b'{' {
            return false;
        }
        self.at += 1;
        self.place = Place::Fresh;
        true
    }

    /// Whether the text ends here with the end of an object.
    pub(crate) fn is_over(&self) -> bool
        ensures { IsTrue result → self.now ≡ end_object ∷ [] }
    {
        let text = self.text;
        if !self.place.may_close() || self.at >= text.len() || text[self.at] != b'}' {
            return false;
        }
        spaces_end(text, self.at + 1) == text.len()
    }

    /// Whether this is the next key; if so, it is taken.
    pub(crate) fn takes_key(&mut self, key: &[u8]) -> bool
        ensures { IsTrue result → read_key self.old ≡ Some (Some key.now, self.new) }
    {
        if !self.place.may_begin() {
            return false;
        }
        let text = self.text;
        let Some(found) = quoted(text, self.at) else {
            return false;
        };
        let end = found.1;
        if end >= text.len() || text[end] != b':' || !are_same(found.0, key) {
            return false;
        }
        self.at = spaces_end(text, end + 1);
        self.place = Place::Fresh;
        true
    }

    /// The next text.
    pub(crate) fn next_text(&mut self) -> Option<&'a [u8]>
        ensures { IfSome result (λ text. Says 0 as_str self.old text.now self.new) }
    {
        if !self.place.may_begin() {
            return None;
        }
        let text = self.text;
        let found = quoted(text, self.at)?;
        if !ends_item(text, found.1) {
            return None;
        }
        let next = behind(text, found.1);
        self.at = next.0;
        self.place = next.1;
        Some(found.0)
    }

    /// The next number, which has no sign.
    fn next_natural(&mut self) -> Option<u64>
        ensures { IfSome result (λ n. (s : List ℕ) × (self.old ≡ number s ∷ self.new) × (number_of s ≡ Some (unsigned n))) }
    {
        if !self.place.may_begin() {
            return None;
        }
        let text = self.text;
        let found = numeral(text, self.at)?;
        let next = behind(text, found.1);
        self.at = next.0;
        self.place = next.1;
        Some(found.0)
    }

    /// The next number, which has a sign.
    fn next_negative(&mut self) -> Option<i64>
        ensures { IfSome result (λ z. (s : List ℕ) × (self.old ≡ number s ∷ self.new) × (number_of s ≡ Some (negative z))) }
    {
        let text = self.text;
        if !self.place.may_begin() || self.at >= text.len() || text[self.at] != b'-' {
            return None;
        }
        let found = numeral(text, self.at + 1)?;
        let number = as_integer(found.0)?;
        if number == 0 {
            return None;
        }
        let next = behind(text, found.1);
        self.at = next.0;
        self.place = next.1;
        Some(-number)
    }

    /// The next number.
    pub(crate) fn next_number(&mut self) -> Option<i64>
        ensures { IfSome result (λ number. Says 0 number_in self.old number self.new) }
    {
        if self.at < self.text.len() && self.text[self.at] == b'-' {
            self.next_negative()
        } else {
            let number = self.next_natural()?;
            as_integer(number)
        }
    }

    /// The next client.
    pub(crate) fn next_client(&mut self) -> Option<u32>
        ensures { IfSome result (λ client. Says 0 client_in self.old client self.new) }
    {
        let number = self.next_natural()?;
        as_client(number)
    }
}
