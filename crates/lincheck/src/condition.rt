//! The command `conditions` with its options: one condition, laid out over lines, or the lines of those that are chosen.
ghost use Rattle.std.specs.Prelude.{◌≡◌, IfOk, IsErr};
ghost use Rattle.lc_outline.specs.DevelopmentView.{development_view};
ghost use Rattle.lc_words.specs.Tasks.{path_in};
ghost use Rattle.lincheck.specs.Condition.{AnswersChosen, AnswersCondition, TellsChosen, TellsCondition, is_known};
ghost use Rattle.lincheck.specs.Reading.{OfFile};

use crate::answer::{Answer, Failure, REFUSED, SUCCESS, Why, told_fault};
use crate::check::open_development;
use crate::files::Files;
use lc_base::{Fault, OutOfMemory, Refusal, write_line};
use lc_cond_text::{chosen_conditions, condition_over_lines, is_point_word};
use lc_outline::Development;
use std::alloc::Global;

/// The condition of a number, laid out; or, if there is none, the line of the refusal.
fn tell_condition(
    alloc: Global,
    development: &Development,
    number: u64,
) -> Result<Answer, OutOfMemory>
    ensures { IfOk result (λ answer. TellsCondition (development_view development.now) number answer.text.items answer.status) }
{
    match condition_over_lines(alloc, development, number)? {
        Some(text) => Ok(Answer {
            text,
            status: SUCCESS,
            why: None,
        }),
        None => told_fault(alloc, Fault::Refused(Refusal::Extra(number))),
    }
}

/// The answer of the command `conditions` with `--at` to the file at a path: the condition of the number, over lines.
pub fn answer_condition<'a, F: Files>(
    alloc: Global,
    files: &mut F,
    path: &'a str,
    number: u64,
) -> Result<Answer, Failure<'a>>
    ensures unread { F.CannotOpen files.old path.now → IsErr result }
    ensures answers { IfOk result (λ answer. OfFile (F.bytes_at files.old path.now) (λ file. AnswersCondition number file answer.text.items answer.status)) }
{
    match open_development(alloc, files, path)? {
        Ok(development) => Ok(tell_condition(alloc, &development, number)?),
        Err(answer) => Ok(answer),
    }
}

/// Whether lines may have the word that is asked for as their POINT, if one is.
fn is_known(development: &Development, point: Option<&str>) -> bool
    ensures { result ≡ is_known (path_in point.entry) (development_view development.now) }
{
    match point {
        Some(word) => is_point_word(development, word),
        None => true,
    }
}

/// The lines of the conditions that have a point and a kind, if these are named; or a word, if there is no such point.
#[tactic(auto, using(crate::proofs::OneCondition::lines_told, crate::proofs::OneCondition::no_point_told))]
fn tell_chosen(
    alloc: Global,
    development: &Development,
    point: Option<&str>,
    kind: Option<&str>,
) -> Result<Answer, OutOfMemory>
    ensures { IfOk result (λ answer. TellsChosen (path_in point.entry) (path_in kind.entry) (development_view development.now) answer.text.items answer.status) }
{
    if !is_known(development, point) {
        return Ok(Answer {
            text: write_line(alloc, "no-such-point", &[])?,
            status: REFUSED,
            why: Some(Why::NoPoint),
        });
    }
    Ok(Answer {
        text: chosen_conditions(alloc, development, point, kind)?,
        status: SUCCESS,
        why: None,
    })
}

/// The answer of the command `conditions` to the file at a path if a point or a kind is named: the lines that have it, or a word, if
/// there is no such point.
pub fn answer_chosen<'a, F: Files>(
    alloc: Global,
    files: &mut F,
    path: &'a str,
    point: Option<&'a str>,
    kind: Option<&'a str>,
) -> Result<Answer, Failure<'a>>
    ensures unread { F.CannotOpen files.old path.now → IsErr result }
    ensures answers { IfOk result (λ answer. OfFile (F.bytes_at files.old path.now) (λ file. AnswersChosen (path_in point.entry) (path_in kind.entry) file answer.text.items answer.status)) }
{
    match open_development(alloc, files, path)? {
        Ok(development) => Ok(tell_chosen(alloc, &development, point, kind)?),
        Err(answer) => Ok(answer),
    }
}
