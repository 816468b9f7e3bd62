//! Orders that are no linearization.
use crate::calls::{calls_of, entries_before, entry_of, place_of, returned};
use crate::replies::{Reply, last_reply};
use crate::sentence::Sentence;
use crate::tally::Tally;
use crate::told::{Row, Told};
use lc_base::OutOfMemory;
use lc_explain::Label;
use lc_history::{Done, Event, Reason};
use lc_seq::{Pick, TextCall, TextSpec};
use std::alloc::Global;

/// An entry of an order.
type Entry = Done<TextCall, Pick, Vec<i64>>;

/// A history with an order.
#[derive(Clone, Copy)]
pub(crate) struct Judged<'a> {
    pub spec: &'a TextSpec,
    pub events: &'a [Event],
    pub order: &'a [Entry],
}

/// Numbers, with commas between them.
fn numbers_text(alloc: Global, numbers: &[i64]) -> Result<String, OutOfMemory> {
    let mut text = String::new(alloc);
    for number in numbers {
        if !text.is_empty() {
            text.push_str(", ")?;
        }
        write!(text, "{number}")?;
    }
    if text.is_empty() {
        text.push_str("nothing")?;
    }
    Ok(text)
}

impl Judged<'_> {
    /// The place of the call of an entry, or of its return.
    fn event_of(&self, place: usize, begins: bool) -> Option<usize> {
        let entry = self.order.get(place)?;
        let number = entries_before(self.order, place, entry.client);
        place_of(self.events, entry.client, begins, number)
    }

    /// The entry at a place is not its client's call of this number.
    fn say_other_call(
        &self,
        told: &mut Told<'_>,
        place: usize,
        entry: &Entry,
    ) -> Result<(), OutOfMemory> {
        let client = entry.client;
        let before = entries_before(self.order, place, client);
        let Some(call) = place_of(self.events, client, true, before) else {
            let calls = calls_of(self.events, client);
            let sentence = Sentence::NoCall { client, calls };
            return told.say(Row::Order, place, Label::Error, sentence);
        };
        let number = before.saturating_add(1);
        let sentence = Sentence::OtherCall { client, number };
        told.say(Row::Order, place, Label::Error, sentence)?;
        let sentence = Sentence::ThatCall { client, number };
        told.say(Row::Events, call, Label::Note, sentence)
    }

    /// The call of an entry returned another reply.
    fn say_other_reply(
        &self,
        alloc: Global,
        told: &mut Told<'_>,
        place: usize,
        entry: &Entry,
    ) -> Result<(), OutOfMemory> {
        let Some(at) = self.event_of(place, false) else {
            return Ok(());
        };
        let numbers = self.events.get(at).and_then(returned).unwrap_or(&[]);
        let replied = numbers_text(alloc, &entry.reply)?;
        let returned = numbers_text(alloc, numbers)?;
        let sentence = Sentence::OtherReply {
            entry: &replied,
            returned: &returned,
        };
        told.say(Row::Order, place, Label::Error, sentence)?;
        told.say(Row::Events, at, Label::Note, Sentence::Returned)
    }

    /// The specification does not give the reply of an entry.
    fn say_no_step(
        &self,
        alloc: Global,
        told: &mut Told<'_>,
        place: usize,
        entry: &Entry,
    ) -> Result<(), OutOfMemory> {
        let upto = self.order.get(..=place).unwrap_or(self.order);
        let Reply::Numbers(numbers) = last_reply(alloc, self.spec, upto)? else {
            return told.say(Row::Order, place, Label::Error, Sentence::NoStep);
        };
        let replied = numbers_text(alloc, &entry.reply)?;
        let specified = numbers_text(alloc, &numbers)?;
        let sentence = Sentence::NoSuchReply {
            entry: &replied,
            specified: &specified,
        };
        told.say(Row::Order, place, Label::Error, sentence)
    }

    /// A return before an event, with the call of an entry from a place on: where the return is, and the place of the entry.
    fn preceding(
        &self,
        alloc: Global,
        place: usize,
        began: usize,
    ) -> Result<Option<(usize, usize)>, OutOfMemory> {
        let before = self.order.get(..place).unwrap_or(self.order);
        let earlier = Tally::of_entries(alloc, before)?;
        let all = Tally::of_entries(alloc, self.order)?;
        let mut returns = Tally::new(alloc);
        for (at, event) in self.events.iter().enumerate().take(began) {
            if event.begins() {
                continue;
            }
            let client = event.client();
            let number = returns.add(client)?;
            if earlier.of(client) <= number && number < all.of(client) {
                return Ok(entry_of(self.order, client, number).map(|later| (at, later)));
            }
        }
        Ok(None)
    }

    /// The call of a later entry returned before that of an entry began.
    fn say_preceded(
        &self,
        alloc: Global,
        told: &mut Told<'_>,
        place: usize,
    ) -> Result<(), OutOfMemory> {
        let Some(began) = self.event_of(place, true) else {
            return Ok(());
        };
        let Some((ended, later)) = self.preceding(alloc, place, began)? else {
            return Ok(());
        };
        told.say(Row::Order, place, Label::Error, Sentence::Preceded(later))?;
        told.say(Row::Events, began, Label::Note, Sentence::Began)?;
        told.say(
            Row::Events,
            ended,
            Label::Note,
            Sentence::HadReturned(later),
        )
    }

    /// A call that returned has no entry.
    fn say_missing(&self, alloc: Global, told: &mut Told<'_>) -> Result<(), OutOfMemory> {
        let entries = Tally::of_entries(alloc, self.order)?;
        let mut returns = Tally::new(alloc);
        for (at, event) in self.events.iter().enumerate() {
            if event.begins() {
                continue;
            }
            let client = event.client();
            let before = returns.add(client)?;
            if entries.of(client) <= before {
                let number = before.saturating_add(1);
                let sentence = Sentence::Missing { client, number };
                return told.say(Row::Events, at, Label::Error, sentence);
            }
        }
        Ok(())
    }

    /// Says why an order is no linearization: the place in the order, and the reason.
    pub(crate) fn say(
        &self,
        alloc: Global,
        told: &mut Told<'_>,
        place: usize,
        reason: Reason,
    ) -> Result<(), OutOfMemory> {
        let Some(entry) = self.order.get(place) else {
            return self.say_missing(alloc, told);
        };
        match reason {
            Reason::OtherCall => self.say_other_call(told, place, entry),
            Reason::OtherReply => self.say_other_reply(alloc, told, place, entry),
            Reason::NoStep => self.say_no_step(alloc, told, place, entry),
            Reason::Preceded => self.say_preceded(alloc, told, place),
            Reason::MissingCall => self.say_missing(alloc, told),
        }
    }
}
