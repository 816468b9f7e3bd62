//! What is said on standard error beside an answer: why a file is refused, from what was kept when it was read, and why no proof was
//! found. It changes neither what is printed on standard output nor the status.
use crate::answer::Why;
use crate::kept::Texts;
use crate::telling::Heard;
use lc_base::{Fault, OutOfMemory, Refusal};
use lc_cond::Numbering;
use lc_explain::{FileKind, report};
use lc_explain_cert::{
    Missed, Source, certificate_explanation, condition_explanation, lints, proof_explanation,
    unfound_conditions, unfound_explanation, unproved_conditions, unused_conjuncts,
};
use lc_explain_hist::{history_explanation, recorded_explanation, unordered_explanation};
use lc_hints::{Hints, hints_of};
use lc_outline::Development;
use lc_outline_text::development_of;
use lc_seq::TextSpec;
use lc_spec_text::spec_of;
use lc_words::{Asked, Chosen, Request, Scope};
use std::alloc::Global;
use std::io::Write;

/// What is said if no order of a history was found, and of a call not all choices were tried.
const UNTRIED_CHOICES: &str =
    "no order was found, and nothing is known of the history: a call is open, or does not reply with the numbers \
of its choice, so that only some of these were tried; an order that you know is looked at, as `\"order\"` in the file";

/// What is said if no order of a history was found, and where a call was tried a number left 64 bits.
const OVERFLOW: &str =
    "no order was found, and nothing is known of the history: where some call was tried, a number that the specification \
reaches left 64 bits; an order that you know is looked at, as `\"order\"` in the file";

/// What is said behind a condition that fails where a run leads.
const FAILING: &str =
    "lincheck: this condition fails where the run leads, with the numbers that its clients have there; so no certificate is accepted: the \
object, a mark, an assertion, the invariant or an action has to be changed\n";

/// A file that a command reads.
#[derive(Clone, Copy)]
struct NamedFile<'a> {
    path: &'a str,
    kind: FileKind,
}

/// The file at a path that is read as this kind.
fn named(path: &str, kind: FileKind) -> Option<NamedFile<'_>> {
    Some(NamedFile { path, kind })
}

/// The first file that a command reads.
fn first_file(request: Request<'_>) -> Option<NamedFile<'_>> {
    match request {
        Request::Formula(path) => named(path, FileKind::Formula),
        Request::Judge { development, .. }
        | Request::Draw { development, .. }
        | Request::Order { development, .. } => named(development, FileKind::Specification),
        Request::Show { development, .. }
        | Request::Conditions { development, .. }
        | Request::Check { development, .. }
        | Request::Prove { development, .. }
        | Request::Run { development, .. }
        | Request::Explore { development, .. } => named(development, FileKind::Development),
        Request::Complete { short, .. } => named(short, FileKind::Development),
        Request::Carry { old, .. } => named(old, FileKind::Development),
        Request::New(_) | Request::Library { .. } => None,
    }
}

/// The second file that a command reads.
fn second_file(request: Request<'_>) -> Option<NamedFile<'_>> {
    match request {
        Request::Judge { history, .. }
        | Request::Draw { history, .. }
        | Request::Order { history, .. } => named(history, FileKind::History),
        Request::Check { certificate, .. }
        | Request::Run { certificate, .. }
        | Request::Carry { certificate, .. } => named(certificate, FileKind::Certificate),
        Request::Prove { hints, .. } => named(hints?, FileKind::Hints),
        Request::Explore {
            scope: Scope::Plan(plan),
            ..
        } => named(plan, FileKind::Plan),
        _ => None,
    }
}

/// The third file that a command reads, or the fourth.
fn further_file(request: Request<'_>, place: usize) -> Option<NamedFile<'_>> {
    match (request, place) {
        (Request::Run { plan, .. }, 2) => named(plan, FileKind::Plan),
        (Request::Carry { new, .. }, 2) => named(new, FileKind::Development),
        (Request::Carry { hints, .. }, 3) => named(hints?, FileKind::Hints),
        _ => None,
    }
}

/// The file that a command reads after `place` others.
fn file_at(request: Request<'_>, place: usize) -> Option<NamedFile<'_>> {
    match place {
        0 => first_file(request),
        1 => second_file(request),
        _ => further_file(request, place),
    }
}

/// A development of which something is said.
#[derive(Drop)]
enum Spoken<'a> {
    /// It was kept when the answer was made.
    Kept(&'a Development),
    /// It was read once more.
    Read(Development),
}

impl Spoken<'_> {
    fn development(&self) -> &Development {
        match self {
            Spoken::Kept(development) => development,
            Spoken::Read(development) => development,
        }
    }
}

/// The development that was kept; else the one that a text says, if it says one.
fn known_development<'a>(
    alloc: Global,
    heard: &'a Heard,
    text: &[u8],
) -> Result<Option<Spoken<'a>>, OutOfMemory> {
    if let Some(development) = heard.development() {
        return Ok(Some(Spoken::Kept(development)));
    }
    match development_of(alloc, text) {
        Ok(development) => Ok(Some(Spoken::Read(development))),
        Err(Fault::Refused(_)) => Ok(None),
        Err(Fault::OutOfMemory) => Err(OutOfMemory),
    }
}

/// The specification that a text begins with, if it begins with one.
fn spec_in(alloc: Global, text: &[u8]) -> Result<Option<TextSpec>, OutOfMemory> {
    match spec_of(alloc, text) {
        Ok(spec) => Ok(Some(spec)),
        Err(Fault::Refused(_)) => Ok(None),
        Err(Fault::OutOfMemory) => Err(OutOfMemory),
    }
}

/// What is said of a history, which was read for the specification in the first file; for `judge` it has to have an order.
fn history_told(
    alloc: Global,
    request: Request<'_>,
    texts: &Texts,
    path: &str,
    bytes: &[u8],
    refusal: &Refusal,
) -> Result<Option<Vec<u8>>, OutOfMemory> {
    let Some(spec) = spec_in(alloc, texts.text(0))? else {
        return Ok(None);
    };
    let text = if matches!(request, Request::Judge { .. }) {
        history_explanation(alloc, path, &spec, bytes, refusal)?
    } else {
        recorded_explanation(alloc, path, &spec, bytes, refusal)?
    };
    Ok(Some(text))
}

/// What is said of a recorded history of which no order linearizes the first `count` events.
fn unordered_told(
    alloc: Global,
    request: Request<'_>,
    texts: &Texts,
    count: u64,
) -> Result<Option<Vec<u8>>, OutOfMemory> {
    let Some(history) = second_file(request) else {
        return Ok(None);
    };
    let Some(spec) = spec_in(alloc, texts.text(0))? else {
        return Ok(None);
    };
    let text = unordered_explanation(alloc, history.path, &spec, texts.text(1), count)?;
    Ok(Some(text))
}

/// Words of the program itself, on a line.
fn own_line(alloc: Global, words: &str) -> Result<Option<Vec<u8>>, OutOfMemory> {
    let text = format!(in alloc; "lincheck: {words}\n")?;
    Ok(Some(text.into_bytes()))
}

/// What is said of a search for an order that was given up, over so many nodes at most.
fn given_up_told(alloc: Global, nodes: u64) -> Result<Option<Vec<u8>>, OutOfMemory> {
    let text = format!(in alloc;
        "lincheck: the search for an order was given up, and nothing is known of the history: {nodes} nodes were looked at, as many as \
        `--budget` of `order` allows, or what is kept of them would take more than a gigabyte\n\
        lincheck: the object may show only late which of its calls came first; look at fewer events, at whose end no call is open, or at an \
        order that you know, as `\"order\"` in the file\n"
    )?;
    Ok(Some(text.into_bytes()))
}

/// What is said of a certificate, which was read for the development in `source`.
fn certificate_told(
    alloc: Global,
    source: Source<'_>,
    path: &str,
    bytes: &[u8],
    refusal: &Refusal,
    heard: &Heard,
) -> Result<Option<Vec<u8>>, OutOfMemory> {
    let Some(spoken) = known_development(alloc, heard, source.bytes)? else {
        return Ok(None);
    };
    let development = spoken.development();
    let flaw = heard.flaw();
    certificate_explanation(alloc, path, source, development, bytes, refusal, flaw)
}

/// The first file that a command reads.
fn source_of<'a>(request: Request<'a>, texts: &'a Texts) -> Source<'a> {
    let path = match first_file(request) {
        Some(file) => file.path,
        None => "",
    };
    Source {
        path,
        bytes: texts.text(0),
    }
}

/// What is said of a file that is refused: where, and why.
fn file_told(
    alloc: Global,
    request: Request<'_>,
    texts: &Texts,
    file: NamedFile<'_>,
    bytes: &[u8],
    refusal: &Refusal,
    heard: &Heard,
) -> Result<Option<Vec<u8>>, OutOfMemory> {
    let NamedFile { path, kind } = file;
    if kind == FileKind::History {
        return history_told(alloc, request, texts, path, bytes, refusal);
    }
    if let Some(text) = report(alloc, path, kind, bytes, refusal)? {
        return Ok(Some(text));
    }
    match kind {
        FileKind::Formula => proof_explanation(alloc, path, bytes, refusal),
        FileKind::Certificate => {
            certificate_told(
                alloc,
                source_of(request, texts),
                path,
                bytes,
                refusal,
                heard,
            )
        }
        _ => Ok(None),
    }
}

/// What is said of the file that is refused: the last that was opened, since none is opened after a refusal.
fn refused_told(
    alloc: Global,
    request: Request<'_>,
    texts: &Texts,
    refusal: &Refusal,
    heard: &Heard,
) -> Result<Option<Vec<u8>>, OutOfMemory> {
    let Some(place) = texts.count().checked_sub(1) else {
        return Ok(None);
    };
    match file_at(request, place) {
        Some(file) => {
            let bytes = texts.text(place);
            file_told(alloc, request, texts, file, bytes, refusal, heard)
        }
        None => Ok(None),
    }
}

/// How many of `count` conditions have carried proofs, how many have proofs that were found, and how many are left, if those before
/// `until` have proofs.
fn counts_told(
    alloc: Global,
    count: u64,
    until: u64,
    heard: &Heard,
) -> Result<String, OutOfMemory> {
    let carried = heard.carried_before(until);
    let found = until.saturating_sub(carried);
    let left = count.saturating_sub(until);
    let text = format!(in alloc;
        "of {count} conditions {carried} have carried proofs, {found} have proofs that were found, and {left} are left\n"
    )?;
    Ok(text)
}

/// How many proofs were carried to a development, if the conditions before `until` have proofs, or all of them.
fn carried_told(
    alloc: Global,
    development: &Development,
    until: Option<u64>,
    heard: &Heard,
) -> Result<String, OutOfMemory> {
    let count = Numbering::new(alloc, development)?.count();
    counts_told(alloc, count, until.unwrap_or(count), heard)
}

/// The development for which a certificate was sought, and the place of its text among those that were read.
fn sought_in(request: Request<'_>) -> Option<(&str, usize)> {
    match request {
        Request::Prove { development, .. } => Some((development, 0)),
        Request::Carry { new, .. } => Some((new, 2)),
        _ => None,
    }
}

/// The line to type if no proof of a condition of a development was found.
fn to_explore(alloc: Global, path: &str) -> Result<String, OutOfMemory> {
    let line = format!(in alloc;
        "lincheck: whether a run of two clients leads to such a state: lincheck explore {path} --clients 2 --calls 2\n"
    )?;
    Ok(line)
}

/// What is said of a certificate that was sought: what is seldom meant in the development; that no proof was found of the condition of a
/// number, if one is given; and how many proofs were carried.
fn sought_told(
    alloc: Global,
    request: Request<'_>,
    texts: &Texts,
    unfound: Option<u64>,
    heard: &Heard,
) -> Result<Option<Vec<u8>>, OutOfMemory> {
    let Some((path, place)) = sought_in(request) else {
        return Ok(None);
    };
    let bytes = texts.text(place);
    let Some(spoken) = known_development(alloc, heard, bytes)? else {
        return Ok(None);
    };
    let development = spoken.development();
    let source = Source { path, bytes };
    let mut text = lints(alloc, source, development)?;
    if let Some(certificate) = heard.certificate() {
        let said = unused_conjuncts(alloc, source, development, certificate)?;
        text.extend_from_slice(&said)?;
    }
    if let Some(number) = unfound {
        let ending = heard.ending();
        let said = unfound_explanation(alloc, source, development, number, ending)?;
        text.extend_from_slice(&said)?;
        let further = to_explore(alloc, path)?;
        text.extend_from_slice(further.as_bytes())?;
    }
    if matches!(request, Request::Carry { .. }) {
        let said = carried_told(alloc, development, unfound, heard)?;
        text.extend_from_slice(said.as_bytes())?;
    }
    Ok(Some(text))
}

/// What is said of a development whose certificate is accepted: what is seldom meant in it.
fn accepted_told(
    alloc: Global,
    request: Request<'_>,
    texts: &Texts,
    heard: &Heard,
) -> Result<Option<Vec<u8>>, OutOfMemory> {
    let source = source_of(request, texts);
    match known_development(alloc, heard, source.bytes)? {
        Some(spoken) => Ok(Some(lints(alloc, source, spoken.development())?)),
        None => Ok(None),
    }
}

/// What is said of a condition that is printed: its places in the file, and its hypotheses by the names of the file.
fn condition_told(
    alloc: Global,
    request: Request<'_>,
    texts: &Texts,
    heard: &Heard,
    number: u64,
) -> Result<Option<Vec<u8>>, OutOfMemory> {
    let source = source_of(request, texts);
    match known_development(alloc, heard, source.bytes)? {
        Some(spoken) => {
            let text = condition_explanation(alloc, source, spoken.development(), number)?;
            Ok(Some(text))
        }
        None => Ok(None),
    }
}

/// What is said of a condition that fails where a run leads.
fn failing_told(
    alloc: Global,
    request: Request<'_>,
    texts: &Texts,
    heard: &Heard,
    number: u64,
) -> Result<Option<Vec<u8>>, OutOfMemory> {
    let Some(mut text) = condition_told(alloc, request, texts, heard, number)? else {
        return Ok(None);
    };
    text.extend_from_slice(FAILING.as_bytes())?;
    Ok(Some(text))
}

/// The names of the points of a development, with commas between them.
fn point_names(alloc: Global, development: &Development) -> Result<String, OutOfMemory> {
    let mut text = String::new(alloc);
    for point in &development.parts().object.parts().points {
        if !text.is_empty() {
            text.push_str(", ")?;
        }
        text.push_str(point.name.as_str())?;
    }
    Ok(text)
}

/// What is said if conditions are asked for of a point that the development does not have.
fn no_point_told(
    alloc: Global,
    request: Request<'_>,
    texts: &Texts,
    heard: &Heard,
) -> Result<Option<Vec<u8>>, OutOfMemory> {
    let Request::Conditions {
        chosen: Chosen::Those {
            point: Some(name),
            ..
        },
        ..
    } = request
    else {
        return Ok(None);
    };
    let Some(spoken) = known_development(alloc, heard, texts.text(0))? else {
        return Ok(None);
    };
    let names = point_names(alloc, spoken.development())?;
    let text = format!(in alloc; "lincheck: no point is named {name}; the points are {names}\n")?;
    Ok(Some(text.into_bytes()))
}

/// What is said if what is near an entry is to be drawn, and there is none at its place.
fn no_mark_told(alloc: Global, place: u64) -> Result<Option<Vec<u8>>, OutOfMemory> {
    let text = format!(in alloc;
        "lincheck: the order has no entry with a call at place {place}\n"
    )?;
    Ok(Some(text.into_bytes()))
}

/// What is said of a request that did what it is for.
fn answered_told(
    alloc: Global,
    request: Request<'_>,
    texts: &Texts,
    heard: &Heard,
) -> Result<Option<Vec<u8>>, OutOfMemory> {
    match request {
        Request::Prove { .. } | Request::Carry { .. } => {
            sought_told(alloc, request, texts, None, heard)
        }
        Request::Check { .. } => accepted_told(alloc, request, texts, heard),
        Request::Conditions {
            chosen: Chosen::Number(number),
            ..
        } => condition_told(alloc, request, texts, heard, number),
        _ => Ok(None),
    }
}

/// What is said of a request, for this reason, if there is one.
fn why_told(
    alloc: Global,
    request: Request<'_>,
    why: Option<Why>,
    texts: &Texts,
    heard: &Heard,
) -> Result<Option<Vec<u8>>, OutOfMemory> {
    match why {
        Some(Why::Refused(refusal)) => refused_told(alloc, request, texts, &refusal, heard),
        Some(Why::Unfound(number)) => sought_told(alloc, request, texts, Some(number), heard),
        Some(Why::Failing(number)) => failing_told(alloc, request, texts, heard, number),
        Some(Why::Unordered(count)) => unordered_told(alloc, request, texts, count),
        Some(Why::UntriedChoices) => own_line(alloc, UNTRIED_CHOICES),
        Some(Why::Overflow) => own_line(alloc, OVERFLOW),
        Some(Why::GivenUp(nodes)) => given_up_told(alloc, nodes),
        Some(Why::NoPoint) => no_point_told(alloc, request, texts, heard),
        Some(Why::NoMark(place)) => no_mark_told(alloc, place),
        None => answered_told(alloc, request, texts, heard),
    }
}

/// Of each condition that a certificate does not prove why it does not.
fn unproved_told(
    alloc: Global,
    texts: &Texts,
    heard: &Heard,
) -> Result<Option<Vec<u8>>, OutOfMemory> {
    match known_development(alloc, heard, texts.text(0))? {
        Some(spoken) => {
            let text = unproved_conditions(alloc, spoken.development(), texts.text(1))?;
            Ok(Some(text.into_bytes()))
        }
        None => Ok(None),
    }
}

/// The hints in a text for a development; none if it says no hints.
fn hints_from(alloc: Global, development: &Development, text: &[u8]) -> Result<Hints, OutOfMemory> {
    match hints_of(alloc, development, text) {
        Ok(hints) => Ok(hints),
        Err(Fault::Refused(_)) => Ok(Hints::new(alloc)),
        Err(Fault::OutOfMemory) => Err(OutOfMemory),
    }
}

/// For which conditions no proof is found, if `number` is the first.
fn misses_told(
    alloc: Global,
    asked: &Asked<'_>,
    number: u64,
    texts: &Texts,
    heard: &Heard,
) -> Result<Option<Vec<u8>>, OutOfMemory> {
    let source = source_of(asked.request, texts);
    let Some(spoken) = known_development(alloc, heard, source.bytes)? else {
        return Ok(None);
    };
    let development = spoken.development();
    let hints = hints_from(alloc, development, texts.text(1))?;
    let ending = heard.ending();
    let first = Missed { number, ending };
    let full = asked.is_explained;
    let text = unfound_conditions(alloc, source, development, &hints, first, full)?;
    Ok(Some(text))
}

/// For which conditions of a development that was made whole no proof is found, if `number` is the first.
fn incomplete_told(
    alloc: Global,
    asked: &Asked<'_>,
    number: u64,
    heard: &Heard,
) -> Result<Option<Vec<u8>>, OutOfMemory> {
    let source = Source {
        path: "standard output",
        bytes: heard.made(),
    };
    let Some(development) = heard.development() else {
        return Ok(None);
    };
    let hints = Hints::new(alloc);
    let ending = heard.ending();
    let first = Missed { number, ending };
    let full = asked.is_explained;
    let text = unfound_conditions(alloc, source, development, &hints, first, full)?;
    Ok(Some(text))
}

/// Whether all that is missing is asked for.
fn is_of_all(request: Request<'_>) -> bool {
    matches!(
        request,
        Request::Check { all: true, .. } | Request::Prove { all: true, .. }
    )
}

/// Says it. A fault of memory or of writing changes nothing.
fn say<E: Write>(err: &mut E, said: Result<Option<Vec<u8>>, OutOfMemory>) {
    if let Ok(Some(text)) = said {
        let _ = err.write_all(&text);
    }
}

/// Whether what is read of files is kept: if something may be said of it.
pub fn is_kept(asked: &Asked<'_>) -> bool {
    asked.is_explained || is_of_all(asked.request)
}

/// Says on standard error what is asked to be said beside an answer: of each condition that is not proved why it is not; where and why
/// a file is refused; and for which conditions no proof was found.
pub fn explain<E: Write>(
    alloc: Global,
    asked: &Asked<'_>,
    why: Option<Why>,
    texts: &Texts,
    heard: &Heard,
    err: &mut E,
) {
    match (asked.request, why) {
        (Request::Check { all: true, .. }, Some(_)) => say(err, unproved_told(alloc, texts, heard)),
        (Request::Prove { all: true, .. }, Some(Why::Unfound(number))) => {
            return say(err, misses_told(alloc, asked, number, texts, heard));
        }
        (Request::Complete { .. }, Some(Why::Unfound(number))) => {
            return say(err, incomplete_told(alloc, asked, number, heard));
        }
        _ => {}
    }
    if asked.is_explained {
        say(err, why_told(alloc, asked.request, why, texts, heard));
    }
}
