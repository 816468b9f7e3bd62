//! What is known at a point of a body, and what of it is asserted there.
use crate::code::{Edge, Point};
use crate::ends::{Ahead, End, Ways, find_ends};
use crate::fact::{Basis, Fact, each_known, is_owned};
use crate::formula::{MARKS, cell_at, has_word, holds};
use crate::living::{Living, find_living};
use crate::marking::reply_column;
use crate::noting::condition_of;
use crate::phases::{Phase, find_phases};
use crate::seen::Body;
use crate::telling::{Told, tell, tested_at};
use crate::text::{
    each_cell, each_item, each_numbered, first_text, mentions, nth_text, printed, text_of,
};
use lc_base::OutOfMemory;
use lc_reading::Part;
use lc_sexp::Cursor;
use std::alloc::Global;

/// What is known of the points of a body.
pub(crate) struct Known<'a> {
    pub(crate) points: Vec<Point<'a>>,
    phases: Vec<Phase>,
    ends: Vec<Ahead>,
    told: Told,
    living: Living<'a>,
}

impl Drop for Known<'_> {
    fn drop(self) {
        let Known {
            points: _,
            phases: _,
            ends: _,
            told: _,
            living: _,
        } = self;
    }
}

impl<'a> Known<'a> {
    /// What is known of these points of a body.
    pub(crate) fn new(
        alloc: Global,
        body: Body<'a, '_>,
        points: Vec<Point<'a>>,
    ) -> Result<Known<'a>, OutOfMemory> {
        let phases = find_phases(alloc, &points, body.object.is_helped)?;
        let ends = find_ends(alloc, &points)?;
        let ways = Ways {
            points: &points,
            ends: &ends,
        };
        let told = tell(alloc, body, ways)?;
        let living = find_living(alloc, body, &points)?;
        Ok(Known {
            points,
            phases,
            ends,
            told,
            living,
        })
    }

    /// Where a call ends from a point on.
    fn end(&self, place: usize) -> Option<End> {
        match self.ends.get(place) {
            Some(Ahead::End(end)) => Some(*end),
            _ => None,
        }
    }

    /// Whether the term of this place among those that are returned is the same from a point on.
    fn stays(&self, place: usize, column: usize) -> bool {
        match self.end(place) {
            Some(end) => end.stays.get(column) == Some(&true),
            None => false,
        }
    }

    /// The numbers of the facts that are known at a point.
    fn numbers(&self, place: usize) -> &[usize] {
        match self.told.known.get(place) {
            Some(Some(numbers)) => numbers,
            _ => &[],
        }
    }

    /// The terms that are returned at the end of a call from a point on.
    fn returned(&self, place: usize) -> Cursor<'a> {
        match self.end(place) {
            Some(end) => match self.points.get(end.place) {
                Some(point) => point.code,
                None => Cursor::empty(),
            },
            None => Cursor::empty(),
        }
    }
}

/// A point of a body, with what is known there.
#[derive(Clone, Copy)]
pub(crate) struct Place<'a, 'b> {
    pub(crate) body: Body<'a, 'b>,
    pub(crate) known: &'b Known<'a>,
    pub(crate) place: usize,
    pub(crate) point: &'b Point<'a>,
}

impl<'a> Place<'a, '_> {
    /// What is known of the call.
    pub(crate) fn phase(self) -> Phase {
        match self.known.phases.get(self.place) {
            Some(phase) => *phase,
            None => Phase::Either,
        }
    }

    /// The terms that are returned if the call goes on by an edge, and what a mark there is done under holds.
    pub(crate) fn returned_by(
        self,
        alloc: Global,
        edge: &Edge<'a>,
    ) -> Result<Cursor<'a>, OutOfMemory> {
        if edge.next.is_none() {
            return Ok(self.known.returned(self.place));
        }
        let ways = Ways {
            points: &self.known.points,
            ends: &self.known.ends,
        };
        let condition = condition_of(alloc, edge.riders)?;
        ways.returned(alloc, edge.next, &condition)
    }

    /// Whether a cell of this index is known to hold a number of the client's own.
    fn is_owned(self, index: &str) -> bool {
        let facts = each_known(&self.known.told.facts, self.known.numbers(self.place));
        is_owned(facts, index)
    }

    /// The cell of what the client owns, or of what it reached where no column tells places, that is read into a local here, if one is.
    fn cell_read(self, alloc: Global, local: &str) -> Result<Option<String>, OutOfMemory> {
        let index = nth_text(self.point.code, 1);
        let is_reached = self.body.places.is_none() && self.body.locals.contains(index);
        if self.point.word != "load" || !(is_reached || self.is_owned(index)) {
            return Ok(None);
        }
        let columns = self.body.object.columns_of(first_text(self.point.code));
        for (column, target) in each_cell(columns, self.point.targets()) {
            if text_of(target) == local {
                return Ok(Some(cell_at(alloc, column, index)?));
            }
        }
        Ok(None)
    }

    /// What a term that is returned is here, if it stays behind it, or is read here of such a cell.
    fn term_at(
        self,
        alloc: Global,
        term: Part<'_>,
        column: usize,
    ) -> Result<Option<String>, OutOfMemory> {
        if self.known.stays(self.place, column) {
            return Ok(Some(printed(alloc, term)?));
        }
        for edge in &self.point.edges {
            if let Some(next) = edge.next
                && self.known.stays(next, column)
            {
                return self.cell_read(alloc, text_of(term));
            }
        }
        Ok(None)
    }

    /// Appends what is known of the replies of the call, which is marked.
    fn push_replies(self, alloc: Global, facts: &mut Vec<String>) -> Result<(), OutOfMemory> {
        for (column, part) in each_numbered(self.known.returned(self.place)) {
            if let Some(term) = self.term_at(alloc, part, column)? {
                facts.push(holds(alloc, reply_column(column, false), "self", &term)?)?;
            }
        }
        Ok(())
    }

    /// Appends what is known of the call: whether it is marked, and what it will return.
    fn push_settled(self, alloc: Global, facts: &mut Vec<String>) -> Result<(), OutOfMemory> {
        match self.phase() {
            Phase::Called => facts.push(holds(alloc, "pend", "self", "1")?)?,
            Phase::Marked => {
                facts.push(holds(alloc, "pend", "self", "2")?)?;
                self.push_replies(alloc, facts)?;
            }
            Phase::Unseen | Phase::Either if self.body.is_tried() => {
                facts.push(holds(alloc, "pend", "self", "1")?)?;
                facts.push(holds(alloc, "pend", "self", "2")?)?;
                self.push_replies(alloc, facts)?;
            }
            Phase::Unseen | Phase::Either => {}
        }
        Ok(())
    }

    /// Whether all locals that a fact speaks of may still be looked at. What is tried may tie cells by others.
    fn is_living(self, fact: &Fact) -> bool {
        let living = &self.known.living;
        if self.body.is_tried() {
            return true;
        }
        living.has_all(self.body, self.place, &fact.premise)
            && living.has_all(self.body, self.place, &fact.claim)
    }

    /// Whether a fact can be of use: at a return it has to speak of what is noted, or returned.
    fn is_of_use(self, fact: &Fact) -> bool {
        if self.body.is_tried() || self.point.word != "return" {
            return true;
        }
        if !fact.premise.is_empty() {
            return false;
        }
        if matches!(fact.basis, Basis::Noted | Basis::Posted) {
            return true;
        }
        if has_word(&fact.claim, &["rd"]) {
            return false;
        }
        for word in fact.claim.split(MARKS) {
            if self.body.locals.contains(word) && mentions(self.point.code, word) {
                return true;
            }
        }
        false
    }

    /// What is known beside it.
    fn told(self, alloc: Global) -> Result<Vec<Fact>, OutOfMemory> {
        let mut facts = Vec::new(alloc);
        let numbers = self.known.numbers(self.place);
        for fact in each_known(&self.known.told.facts, numbers) {
            if self.is_living(fact) && self.is_of_use(fact) {
                facts.push(fact.copy()?)?;
            }
        }
        Ok(facts)
    }

    /// What is guessed, beside what the file asserts.
    pub(crate) fn asserted(self, alloc: Global) -> Result<Vec<String>, OutOfMemory> {
        let mut facts = Vec::new(alloc);
        self.push_settled(alloc, &mut facts)?;
        let told = self.told(alloc)?;
        let texts = if self.body.is_tried() {
            each_text(alloc, &told)?
        } else {
            grouped(alloc, &told)?
        };
        for text in texts {
            facts.retain(|other| other.as_str() != text.as_str());
            facts.push(text)?;
        }
        for part in each_item(self.point.asserted) {
            let text = printed(alloc, part)?;
            facts.retain(|fact| fact.as_str() != text.as_str());
        }
        Ok(facts)
    }

    /// Appends what is tried for a guard where a test tells more.
    fn push_shown(
        self,
        alloc: Global,
        facts: &mut Vec<Fact>,
        edge: &Edge<'a>,
    ) -> Result<(), OutOfMemory> {
        let mut shown = Vec::new(alloc);
        for text in tested_at(alloc, self.point, edge)? {
            for fact in facts.iter() {
                if fact.premise.as_str() == text.as_str() {
                    shown.push(Fact::plain(alloc, fact.claim.clone()?))?;
                }
            }
            shown.push(Fact::plain(alloc, text))?;
        }
        for atom in &self.body.object.idle_atoms {
            shown.push(Fact::plain(alloc, atom.clone()?))?;
        }
        facts.append(&mut shown)?;
        Ok(())
    }

    /// What is known for the guard of the action of an edge: also what the file asserts.
    pub(crate) fn guarding(self, alloc: Global, edge: &Edge<'a>) -> Result<Vec<Fact>, OutOfMemory> {
        let mut facts = self.told(alloc)?;
        if self.body.is_tried() && self.point.word == "if" {
            self.push_shown(alloc, &mut facts, edge)?;
        }
        for part in each_item(self.point.asserted) {
            facts.push(Fact::plain(alloc, printed(alloc, part)?))?;
        }
        Ok(facts)
    }
}

/// Whether one of these facts before a place has this premise.
fn has_premise(facts: &[Fact], place: usize, premise: &str) -> bool {
    for fact in facts.iter().take(place) {
        if fact.premise.as_str() == premise {
            return true;
        }
    }
    false
}

/// The formula that all claims of these facts hold where a premise does.
fn joined_under(alloc: Global, facts: &[Fact], premise: &str) -> Result<String, OutOfMemory> {
    let mut claims = String::new(alloc);
    let mut count = 0usize;
    for fact in facts {
        if fact.premise.as_str() == premise {
            claims.push_str(if count == 0 { "" } else { " " })?;
            claims.push_str(&fact.claim)?;
            count = count.saturating_add(1);
        }
    }
    Ok(if count == 1 {
        format!(in alloc; "(=> {premise} {claims})")?
    } else {
        format!(in alloc; "(=> {premise} (and {claims}))")?
    })
}

/// These facts, each by itself.
fn each_text(alloc: Global, facts: &[Fact]) -> Result<Vec<String>, OutOfMemory> {
    let mut texts = Vec::new(alloc);
    for fact in facts {
        texts.push(fact.text(alloc)?)?;
    }
    Ok(texts)
}

/// These facts, those with one premise together.
fn grouped(alloc: Global, facts: &[Fact]) -> Result<Vec<String>, OutOfMemory> {
    let mut texts = Vec::new(alloc);
    for (place, fact) in facts.iter().enumerate() {
        if fact.premise.is_empty() {
            texts.push(fact.claim.clone()?)?;
        } else if !has_premise(facts, place, &fact.premise) {
            texts.push(joined_under(alloc, facts, &fact.premise)?)?;
        }
    }
    Ok(texts)
}
