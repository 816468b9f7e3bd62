//! Names: what a text has to be to name something, and the type of the texts that are.
ghost use Rattle.std.specs.Prelude.{◌≡◌, true};
ghost use Rattle.std.specs.List.{list_all};
ghost use Rattle.lc_base.specs.NameText.{begins_name, continues_name, is_name};

use crate::limits::NAME_LIMIT;
use arrayvec::ArrayString;
use std::fmt;

/// A name: a letter or `_`, then letters, digits, `_`, `-` and `.`, together at most `NAME_LIMIT` bytes.
/// It lies in the value itself, so a copy takes no memory.
#[derive(Clone, Copy, PartialEq, Eq)]
pub struct Name {
    text: ArrayString<NAME_LIMIT>,
    ghost is_name: { is_name text.bytes ≡ true },
}

impl Name {
    ghost use Rattle.std.specs.Prelude.{◌≡◌, ◌≤◌, ◌↔◌, true, IsSome, IfSome, length};
    ghost use Rattle.lc_base.specs.NameText.{is_name};
    ghost use Rattle.lc_base.specs.Limits.{name_limit};
    ghost use Rattle.lc_base.specs.Name.{bytes_of};

    /// The name of this text, if it is one and has at most `NAME_LIMIT` bytes.
    pub fn new(text: &str) -> Option<Name>
        ensures valid { IsSome result ↔ ((is_name text.now ≡ true) × (length text.now ≤ name_limit)) }
        ensures value { IfSome result (λ name. bytes_of name ≡ text.now) }
    {
        if !is_name(text.as_bytes()) {
            return None;
        }
        let text = ArrayString::from(text).ok()?;
        Some(Name { text })
    }

    /// Its text.
    pub fn as_str(&self) -> &str
        ensures text { result.now ≡ bytes_of self.now }
        ensures name { is_name result.now ≡ true }
        ensures limit { length result.now ≤ name_limit }
    {
        self.text.as_str()
    }
}

impl fmt::Display for Name {
    ghost use Rattle.std.specs.Prelude.{Some};
    ghost use Rattle.lc_base.specs.Name.{bytes_of};

    ghost output = { λ name. Some (bytes_of name) };

    fn fmt<W: fmt::Write>(&self, f: &mut fmt::Formatter<W>) -> fmt::Result {
        f.write_str(self.as_str())
    }
}

#[tactic(auto, unfolding(crate::specs::NameText::begins_name))]
fn begins_name(byte: u8) -> bool
    ensures { result ≡ begins_name byte }
{
    byte.is_ascii_alphabetic() || byte == b'_'
}

#[tactic(auto, unfolding(crate::specs::NameText::continues_name))]
fn continues_name(byte: u8) -> bool
    ensures { result ≡ continues_name byte }
{
    byte.is_ascii_alphanumeric() || matches!(byte, b'_' | b'-' | b'.')
}

fn all_continue_name(bytes: &[u8]) -> bool
    ensures { result ≡ list_all continues_name bytes.now }
{
    bytes.iter().all(|byte| continues_name(*byte))
}

/// Whether a text is a name: a letter or `_`, then letters, digits, `_`, `-` and `.`, of any length.
pub fn is_name(text: &[u8]) -> bool
    ensures { result ≡ is_name text.now }
{
    match text.split_first() {
        None => false,
        Some((first, others)) => begins_name(*first) && all_continue_name(others),
    }
}
