//! Where proofs are in a file, and their steps.
use crate::around::{list_around, word_at};
use crate::forms::{has_columns, is_step};
use crate::lists::{is_in_comment, leading_atom, place_from, span_from, word_of_list};
use lc_place::{Place, item_place};
use memchr::{memchr, memmem};

/// The word of the list with which these bytes begin.
fn first_word_of(list: &[u8]) -> Option<&str> {
    let inside = list.get(1..)?;
    word_at(inside, item_place(inside, 0)?)
}

/// Whether the list at an offset of a proof is a step, and no column that begins with the same word.
fn begins_step(proof: &[u8], offset: usize) -> bool {
    let Some(word) = first_word_of(proof.get(offset..).unwrap_or(&[])) else {
        return false;
    };
    if word != "affine" {
        return is_step(word);
    }
    match list_around(proof, offset) {
        Some(list) => !has_columns(list.word),
        None => true,
    }
}

/// Where a step of this number begins in a proof.
fn step_offset(proof: &[u8], step: u64) -> Option<usize> {
    let mut left = step;
    let mut in_comment = false;
    for (at, byte) in proof.iter().enumerate() {
        in_comment = is_in_comment(*byte, in_comment);
        if in_comment || *byte != b'(' || !begins_step(proof, at) {
            continue;
        }
        if left == 0 {
            return Some(at);
        }
        left -= 1;
    }
    None
}

/// The place of a step, by its number in preorder from 0, of the proof at a place.
pub fn step_place(bytes: &[u8], proof: Place, step: u64) -> Option<Place> {
    let text = bytes.get(proof.offset..)?.get(..proof.length)?;
    place_from(bytes, proof.offset.checked_add(step_offset(text, step)?)?)
}

/// The word with which an entry of a certificate begins.
const PROOF: &str = "proof";

/// The number of the condition of an entry, as it is written. It is looked for behind comments only if it is not next to the word.
fn number_text(entry: &[u8]) -> Option<&str> {
    let inside = entry.get(1..)?.trim_ascii_start();
    if inside.starts_with(PROOF.as_bytes()) {
        let number = leading_atom(inside.get(PROOF.len()..)?.trim_ascii_start());
        if !number.is_empty() {
            return Some(number);
        }
    }
    word_at(entry, item_place(entry, 2)?)
}

/// Where the proof begins in the list with which these bytes begin, if that is one of this condition, or of none.
fn proof_in(list: &[u8], condition: Option<u64>) -> Option<usize> {
    if word_of_list(list) != PROOF {
        return None;
    }
    let Some(condition) = condition else {
        return Some(item_place(list, 2)?.offset);
    };
    let number: u64 = number_text(list)?.parse().ok()?;
    if number != condition {
        return None;
    }
    Some(item_place(list, 3)?.offset)
}

/// Where a list begins that has a proof in it, and where the proof does.
#[derive(Clone, Copy)]
struct Entry {
    list: usize,
    proof: usize,
}

/// The entry at an offset, if one of this condition, or of none, begins there.
fn entry_at(bytes: &[u8], at: usize, condition: Option<u64>) -> Option<Entry> {
    let offset = proof_in(bytes.get(at..)?, condition)?;
    Some(Entry {
        list: at,
        proof: at.checked_add(offset)?,
    })
}

/// The entry of a condition in a file without comments, where the word of its list is next to the bracket.
fn plain_entry(bytes: &[u8], condition: Option<u64>) -> Option<Entry> {
    if memchr(b';', bytes).is_some() {
        return None;
    }
    for at in memmem::find_iter(bytes, b"(proof") {
        if let Some(entry) = entry_at(bytes, at, condition) {
            return Some(entry);
        }
    }
    None
}

/// The entry of a condition in a certificate, or the only one of a formula file. Entries are looked for by their word first, since
/// a certificate is mostly one long line, and then list by list.
fn entry_of(bytes: &[u8], condition: Option<u64>) -> Option<Entry> {
    if let Some(entry) = plain_entry(bytes, condition) {
        return Some(entry);
    }
    let mut depth = 0usize;
    let mut in_comment = false;
    for (at, byte) in bytes.iter().enumerate() {
        match *byte {
            b';' => in_comment = true,
            b'\n' => in_comment = false,
            b'(' if !in_comment => {
                if depth == 1
                    && let Some(entry) = entry_at(bytes, at, condition)
                {
                    return Some(entry);
                }
                depth = depth.saturating_add(1);
            }
            b')' if !in_comment => depth = depth.saturating_sub(1),
            _ => {}
        }
    }
    None
}

/// The place of the proof of a condition in a certificate, or of the only proof of a formula file.
pub fn proof_place(bytes: &[u8], condition: Option<u64>) -> Option<Place> {
    place_from(bytes, entry_of(bytes, condition)?.proof)
}

/// The list in which a certificate has the proof of a condition. Of its place the line and the column are not those of the file.
pub fn entry_span(bytes: &[u8], condition: u64) -> Option<Place> {
    span_from(bytes, entry_of(bytes, Some(condition))?.list)
}
