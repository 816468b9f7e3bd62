//! Which conjuncts of a development no proof of a certificate uses, but those of conditions that are about the conjunct itself.
use crate::naming::point_name;
use crate::source::{Source, push_part};
use lc_base::{OutOfMemory, PointId};
use lc_cert::Certificate;
use lc_cond::{Condition, ConditionStream, Kind, Which};
use lc_explain::Part;
use lc_kernel::{Proof, Step};
use lc_outline::{Development, Parts};
use lc_table::Terms;
use std::alloc::Global;

/// How many hypotheses say that a client is one of those that there are.
const RANGE: usize = 2;

/// How many say that two clients are not the same.
const APART: usize = 1;

/// How many say that a client is idle.
const IDLE: usize = 1;

/// How many say that a client is in a call of its operation, beside those of the arguments.
const CALL: usize = 3;

/// A conjunct of what is known of a client and of all.
#[derive(Clone, Copy)]
enum Conjunct {
    /// One of the invariant, by its place.
    OfInvariant(usize),
    /// One that is asserted of the client, by its place.
    Asserted(usize),
}

/// Where the hypotheses of a condition are that are conjuncts of the development.
#[derive(Clone, Copy)]
struct Layout {
    /// Where the client is; nowhere if it is idle.
    client: Option<PointId>,
    /// How many hypotheses come before the conjuncts of the invariant.
    before: usize,
    /// How many conjuncts the invariant has.
    invariant: usize,
    /// How many are asserted of the client; they come next.
    asserted: usize,
    /// Whether a guard and the invariant after an action come after them.
    is_passed: bool,
}

impl Layout {
    /// The conjunct that is the hypothesis of a number, if it is one.
    fn conjunct(self, hypothesis: i64) -> Option<Conjunct> {
        let hypothesis = usize::try_from(hypothesis).ok()?;
        let place = hypothesis.checked_sub(self.before)?;
        if place < self.invariant {
            return Some(Conjunct::OfInvariant(place));
        }
        let place = place.checked_sub(self.invariant)?;
        if place < self.asserted {
            return Some(Conjunct::Asserted(place));
        }
        let place = place.checked_sub(self.asserted)?.checked_sub(1)?;
        if self.is_passed && place < self.invariant {
            return Some(Conjunct::OfInvariant(place));
        }
        None
    }
}

/// What is asserted of a client at a point; of an idle one, if there is none.
fn asserted_count(parts: &Parts, client: Option<PointId>) -> usize {
    match client {
        Some(point) => match parts.outlines.get(point.0 as usize) {
            Some(outline) => outline.asserts.len(),
            None => 0,
        },
        None => parts.idle.len(),
    }
}

/// How many hypotheses say what a client does that is at a point; that it is idle, if it is at none.
fn frame_count(parts: &Parts, client: Option<PointId>) -> usize {
    let Some(point) = client else {
        return IDLE;
    };
    let object = parts.object.parts();
    let Some(point) = object.points.get(point.0 as usize) else {
        return 0;
    };
    match object.operations.get(point.operation.0 as usize) {
        Some(operation) => CALL.saturating_add(operation.arguments.len()),
        None => 0,
    }
}

/// Where the conjuncts are among the hypotheses of a condition; nowhere at the start.
fn layout_of(parts: &Parts, condition: &Condition) -> Option<Layout> {
    let (client, is_passed) = match condition.kind {
        Kind::Init | Kind::InitIdle => return None,
        Kind::Entry | Kind::First => (None, false),
        Kind::Stable => (condition.place.point, true),
        _ => (condition.place.point, false),
    };
    let clients = if is_passed {
        RANGE + RANGE + APART
    } else {
        RANGE
    };
    Some(Layout {
        client,
        before: clients.saturating_add(frame_count(parts, client)),
        invariant: parts.tie.conjuncts().len(),
        asserted: asserted_count(parts, client),
        is_passed,
    })
}

/// The conjunct that a condition is about and that is one of its hypotheses, if there is one.
fn own_conjunct(condition: &Condition) -> Option<Conjunct> {
    let Which::Numbered(number) = condition.place.which else {
        return None;
    };
    match condition.kind {
        Kind::Entry | Kind::Invariant => Some(Conjunct::OfInvariant(number)),
        Kind::Stable => Some(Conjunct::Asserted(number)),
        _ => None,
    }
}

/// Whether two are the same conjunct.
fn is_same(left: Conjunct, right: Conjunct) -> bool {
    match (left, right) {
        (Conjunct::OfInvariant(left), Conjunct::OfInvariant(right)) => left == right,
        (Conjunct::Asserted(left), Conjunct::Asserted(right)) => left == right,
        _ => false,
    }
}

/// Which conjuncts are used: of the invariant, of idle clients, and of each point.
struct Used {
    invariant: Vec<bool>,
    idle: Vec<bool>,
    points: Vec<Vec<bool>>,
}

impl Drop for Used {
    fn drop(self) {
        let Used {
            invariant: _,
            idle: _,
            points: _,
        } = self;
    }
}

/// So many, of which none is used.
fn unused(alloc: Global, count: usize) -> Result<Vec<bool>, OutOfMemory> {
    let mut flags = Vec::new(alloc);
    for _ in 0..count {
        flags.push(false)?;
    }
    Ok(flags)
}

/// The one at a place is used, if there is one.
fn mark_at(flags: &mut Vec<bool>, place: usize) {
    if let Some(flag) = flags.get_mut(place) {
        *flag = true;
    }
}

impl Used {
    /// None.
    fn none(alloc: Global, parts: &Parts) -> Result<Used, OutOfMemory> {
        let mut points = Vec::new(alloc);
        for outline in &parts.outlines {
            points.push(unused(alloc, outline.asserts.len())?)?;
        }
        Ok(Used {
            invariant: unused(alloc, parts.tie.conjuncts().len())?,
            idle: unused(alloc, parts.idle.len())?,
            points,
        })
    }

    /// A conjunct is used of what is known of a client.
    fn mark(&mut self, client: Option<PointId>, conjunct: Conjunct) {
        match (conjunct, client) {
            (Conjunct::OfInvariant(place), _) => mark_at(&mut self.invariant, place),
            (Conjunct::Asserted(place), None) => mark_at(&mut self.idle, place),
            (Conjunct::Asserted(place), Some(point)) => {
                if let Some(flags) = self.points.get_mut(point.0 as usize) {
                    mark_at(flags, place);
                }
            }
        }
    }

    /// A hypothesis is used by the proof of a condition about its `own` conjunct.
    fn mark_hypothesis(&mut self, layout: Layout, own: Option<Conjunct>, hypothesis: i64) {
        let Some(conjunct) = layout.conjunct(hypothesis) else {
            return;
        };
        match own {
            Some(own) if is_same(own, conjunct) => {}
            _ => self.mark(layout.client, conjunct),
        }
    }

    /// The hypotheses are used that a step names.
    fn mark_step(&mut self, layout: Layout, own: Option<Conjunct>, step: &Step) {
        match step {
            Step::Split { hypothesis }
            | Step::Cases { hypothesis }
            | Step::Push { hypothesis }
            | Step::Instantiate { hypothesis, .. }
            | Step::Fresh { hypothesis }
            | Step::Trichotomy { hypothesis }
            | Step::Divide { hypothesis, .. } => self.mark_hypothesis(layout, own, *hypothesis),
            Step::Opposite {
                hypothesis,
                negation,
            } => {
                self.mark_hypothesis(layout, own, *hypothesis);
                self.mark_hypothesis(layout, own, *negation);
            }
            Step::Sum { multiples } => {
                for multiple in multiples {
                    self.mark_hypothesis(layout, own, multiple.hypothesis);
                }
            }
            Step::Cut { .. }
            | Step::Written { .. }
            | Step::Same { .. }
            | Step::Affine { .. }
            | Step::Open => {}
        }
    }

    /// The hypotheses are used that the steps of a proof name.
    fn mark_proof(&mut self, layout: Layout, own: Option<Conjunct>, proof: &Proof) {
        self.mark_step(layout, own, &proof.step);
        for branch in &proof.branches {
            self.mark_proof(layout, own, branch);
        }
    }

    /// What the proofs use of these conditions, of which the first has this number.
    fn mark_part(
        &mut self,
        parts: &Parts,
        certificate: &Certificate,
        first: u64,
        conditions: &[Condition],
    ) {
        let mut number = first;
        for condition in conditions {
            if let (Some(layout), Some(proof)) = (
                layout_of(parts, condition),
                certificate.proof(number),
            ) {
                self.mark_proof(layout, own_conjunct(condition), proof);
            }
            number = number.saturating_add(1);
        }
    }
}

/// What the proofs of a certificate use.
fn used_by(
    alloc: Global,
    development: &Development,
    certificate: &Certificate,
) -> Result<Used, OutOfMemory> {
    let parts = development.parts();
    let mut used = Used::none(alloc, parts)?;
    let mut stream = ConditionStream::new(alloc, development)?;
    'parts: loop {
        let first = stream.first_number();
        let mut terms = Terms::new(alloc);
        let Some(conditions) = stream.next_part(development, &mut terms)? else {
            return Ok(used);
        };
        used.mark_part(parts, certificate, first, &conditions);
    }
}

/// What is said of a conjunct that is not used.
const UNUSED: &str = "no proof of another condition uses this: it may be left out";

/// How many are shown; of the others their count is said.
const MOST_SHOWN: usize = 32;

/// Where conjuncts are claimed.
#[derive(Clone, Copy)]
enum Owner<'a> {
    Invariant,
    Idle,
    Point(&'a str),
}

impl<'a> Owner<'a> {
    /// The conjunct at a place, as a part of the file.
    fn part(self, number: usize) -> Part<'a> {
        match self {
            Owner::Invariant => Part::Invariant(number),
            Owner::Idle => Part::Idle(number),
            Owner::Point(point) => Part::Assertion { point, number },
        }
    }
}

/// The text about conjuncts that are not used, and of how many it is.
struct Told<'a> {
    source: Source<'a>,
    text: Vec<u8>,
    count: usize,
}

impl Drop for Told<'_> {
    fn drop(self) {
        let Told {
            source: _,
            text: _,
            count: _,
        } = self;
    }
}

impl Told<'_> {
    /// Appends of each conjunct that is not used where it is.
    fn push(&mut self, alloc: Global, owner: Owner<'_>, flags: &[bool]) -> Result<(), OutOfMemory> {
        for (number, is_used) in flags.iter().enumerate() {
            if *is_used {
                continue;
            }
            if self.count < MOST_SHOWN {
                push_part(
                    alloc,
                    &mut self.text,
                    self.source,
                    owner.part(number),
                    UNUSED,
                )?;
            }
            self.count = self.count.saturating_add(1);
        }
        Ok(())
    }

    /// The text, with how many are not shown.
    fn ended(self, alloc: Global) -> Result<Vec<u8>, OutOfMemory> {
        let Told {
            source: _,
            mut text,
            count,
        } = self;
        if let Some(more) = count.checked_sub(MOST_SHOWN)
            && more > 0
        {
            let line = format!(in alloc;
                "and {more} more are used by no proof of another condition\n"
            )?;
            text.extend_from_slice(line.as_bytes())?;
        }
        Ok(text)
    }
}

/// The conjuncts of a development, with their places in its file, that no proof of a certificate uses, but those of conditions that
/// are about the conjunct itself.
pub fn unused_conjuncts(
    alloc: Global,
    source: Source<'_>,
    development: &Development,
    certificate: &Certificate,
) -> Result<Vec<u8>, OutOfMemory> {
    let parts = development.parts();
    let used = used_by(alloc, development, certificate)?;
    let mut told = Told {
        source,
        text: Vec::new(alloc),
        count: 0,
    };
    told.push(alloc, Owner::Invariant, &used.invariant)?;
    told.push(alloc, Owner::Idle, &used.idle)?;
    for (number, flags) in used.points.iter().enumerate() {
        let point = PointId(u32::try_from(number).unwrap_or(0));
        told.push(alloc, Owner::Point(point_name(parts, point)), flags)?;
    }
    told.ended(alloc)
}
