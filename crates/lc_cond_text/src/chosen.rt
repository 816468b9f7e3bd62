//! The lines of conditions that are chosen.
ghost use Rattle.std.specs.Prelude.{◌≡◌, ◌+◌, ◌++◌, [], ◌∷◌, suc, map, IfOk, OnOk, option_map};
ghost use Rattle.lc_cond.specs.ConditionView.{condition_in, AreConditions, IsCondition};
ghost use Rattle.lc_cond_text.specs.ConditionText.{condition_text};
ghost use Rattle.lc_outline.specs.DevelopmentView.{development_view};
ghost use Rattle.lc_cond_text.specs.Chosen.{chosen_count, chosen_from, chosen_text, is_asked, is_chosen};

use crate::text::{condition_text, kind_word};
use crate::words::point_word;
use lc_base::{OutOfMemory, write_line};
use lc_cond::{Condition, ConditionStream};
use lc_outline::Development;
use lc_table::Terms;
use std::alloc::Global;

/// The words that a line has to have, if they are asked for.
#[derive(Clone, Copy)]
struct Words<'a> {
    point: Option<&'a str>,
    kind: Option<&'a str>,
}

/// Whether a word is the one that is asked for, if one is.
fn is_asked(asked: Option<&str>, word: &str) -> bool
    ensures { result ≡ is_asked (option_map (λ a. a.now) asked.entry) word.now }
{
    match asked {
        Some(asked) => word == asked,
        None => true,
    }
}

/// Whether the line of a condition has the words.
fn is_chosen(
    words: Words<'_>,
    development: &Development,
    terms: &Terms,
    condition: &Condition,
) -> bool
    ensures { result ≡ is_chosen (option_map (λ a. a.now) words.entry.point) (option_map (λ a. a.now) words.entry.kind) (development_view development.now) (condition_in terms.now condition.now) }
{
    let _ = terms;
    is_asked(words.point, point_word(development, condition.place.point))
        && is_asked(words.kind, kind_word(condition.kind))
}

/// Appends the line of a condition.
fn push_chosen_line(
    text: &mut Vec<u8>,
    development: &Development,
    terms: &Terms,
    number: u64,
    condition: &Condition,
) -> Result<(), OutOfMemory>
    requires { IsCondition terms.now condition.now }
    ensures { OnOk result (text.new.items ≡ text.old.items ++ (condition_text (development_view development.now) number (condition_in terms.now condition.now) ++ 10 ∷ [])) }
{
    let line = condition_text(*text.allocator(), terms, development, number, condition)?;
    text.extend_from_slice(&line)?;
    text.push(b'\n')?;
    Ok(())
}

/// The next number.
fn next(number: u64) -> Result<u64, OutOfMemory>
    ensures { IfOk result (λ next. next ≡ suc number) }
{
    number.checked_add(1).ok_or(OutOfMemory)
}

/// Appends the lines of the chosen conditions of a part, the first condition having the number `first`; returns how many are
/// chosen so far, `before` of them before this part.
fn push_part(
    text: &mut Vec<u8>,
    words: Words<'_>,
    development: &Development,
    terms: &Terms,
    part: &[Condition],
    first: u64,
    before: u64,
) -> Result<u64, OutOfMemory>
    requires { AreConditions terms.now part.now }
    ensures lines { OnOk result (text.new.items ≡ text.old.items ++ chosen_from (option_map (λ a. a.now) words.entry.point) (option_map (λ a. a.now) words.entry.kind) (development_view development.now) first (map (condition_in terms.now) part.now)) }
    ensures count { IfOk result (λ count. count ≡ before + chosen_count (option_map (λ a. a.now) words.entry.point) (option_map (λ a. a.now) words.entry.kind) (development_view development.now) (map (condition_in terms.now) part.now)) }
{
    let mut number = first;
    let mut count = before;
    for condition in part {
        if is_chosen(words, development, terms, condition) {
            push_chosen_line(text, development, terms, number, condition)?;
            count = next(count)?;
        }
        number = next(number)?;
    }
    Ok(count)
}

/// The lines of the conditions that have this POINT and this KIND, if these are given, and `total` with their number.
pub fn chosen_conditions(
    alloc: Global,
    development: &Development,
    point: Option<&str>,
    kind: Option<&str>,
) -> Result<Vec<u8>, OutOfMemory>
    ensures { IfOk result (λ text. text.items ≡ chosen_text (option_map (λ a. a.now) point.entry) (option_map (λ a. a.now) kind.entry) (development_view development.now)) }
{
    let words = Words { point, kind };
    let mut stream = ConditionStream::new(alloc, development)?;
    let mut text = Vec::new(alloc);
    let mut count = 0;
    'parts: loop {
        let first = stream.first_number();
        let mut terms = Terms::new(alloc);
        let Some(part) = stream.next_part(development, &mut terms)? else {
            let total = write_line(alloc, "total", &[count])?;
            text.extend_from_slice(&total)?;
            return Ok(text);
        };
        count = push_part(&mut text, words, development, &terms, &part, first, count)?;
    }
}
