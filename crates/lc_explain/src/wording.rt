//! Which sentence is said of a refusal.
use crate::around::{Around, first_word, list_around, list_count, top_count, word_at};
use crate::declared::{Sort, has_list, is_column, seek};
use crate::forms::{form_of, has_one, needs_of, sort_at};
use crate::kind::{FileKind, looks_like};
use crate::limits::{too_many_lists, too_many_names};
use crate::operators::{begins_comment, is_other_comment, operator_at, written_for};
use crate::order::disorder_of;
use crate::sentence::{
    BEYOND, CLOSES_NOTHING, LACKS, MISPLACED, Meant, NEVER_CLOSED, NO_NEXT_CONDITION, NOT_ITS_OWN,
    OTHER_BYTE, OTHER_COMMENT, OTHER_OBJECT, RESERVED, Sentence, Spot, UNDECLARED_IN_PROOF, What,
};
use crate::spot::{Due, due_in, least_count, may_stand, note_of};
use crate::steps::proof_place;
use lc_base::{DEPTH_LIMIT, FILE_LIMIT, NAME_LIMIT, REPLY_LIMIT, Refusal, is_name};
use lc_place::{Place, item_place};
use lc_reading::is_reserved;

/// An item that is refused, and where it is.
#[derive(Clone, Copy)]
struct Refused<'a> {
    bytes: &'a [u8],
    number: u64,
    place: Place,
    /// The list around it.
    list: Around<'a>,
    /// The list round that.
    outer: Around<'a>,
    /// And the list round that one.
    third: Around<'a>,
}

/// Where an item is in a list that is written so.
fn spot_in<'a>(list: Around<'a>, form: &'static str) -> Spot<'a> {
    match due_in(form, list.part) {
        Due::Part(part) => Spot::Due {
            part,
            note: note_of(list.word, part),
            form,
        },
        Due::Nothing => Spot::Behind(form),
        Due::Unknown => Spot::In(form),
    }
}

/// Whether a list that begins with a word may be at a place.
fn fits_in(word: &str, spot: Spot<'_>) -> bool {
    match spot {
        Spot::Due { part, .. } => may_stand(word, part),
        Spot::Behind(_) | Spot::BehindFile(_) => false,
        Spot::In(_) | Spot::File(_) => true,
    }
}

impl<'a> Refused<'a> {
    /// The item of this number.
    fn new(bytes: &'a [u8], number: u64, place: Place) -> Refused<'a> {
        let list = list_around(bytes, place.offset).unwrap_or(Around::NONE);
        let outer = list_around(bytes, list.offset).unwrap_or(Around::NONE);
        let third = list_around(bytes, outer.offset).unwrap_or(Around::NONE);
        Refused {
            bytes,
            number,
            place,
            list,
            outer,
            third,
        }
    }

    /// The atom that it is, or nothing.
    fn word(&self) -> Option<&'a str> {
        word_at(self.bytes, self.place)
    }

    /// The atom that it is, which is empty if it is a list.
    fn text(&self) -> &'a str {
        self.word().unwrap_or("")
    }

    /// Where it is.
    fn spot(&self, kind: FileKind) -> Spot<'a> {
        for (list, outer) in [
            (self.list, self.outer),
            (self.outer, self.third),
            (self.third, Around::NONE),
        ] {
            match form_of(list.word, outer.word) {
                Some(form) if list.part > 0 => return spot_in(list, form),
                _ => {}
            }
        }
        let forms_before = top_count(self.bytes, self.place.offset);
        if self.list.word.is_empty() && forms_before >= kind.form_count() {
            Spot::BehindFile(kind)
        } else {
            Spot::File(kind)
        }
    }

    /// A list of this word, which has a form of its own, does not fit.
    fn unfit_list(&self, word: &'a str, own: &'static str, spot: Spot<'a>) -> Sentence<'a> {
        if list_count(self.bytes, self.place) < least_count(own, has_one(word)) {
            return Sentence::Said(&LACKS, own);
        }
        let needs = needs_of(word);
        if needs.is_empty() {
            Sentence::UnfitForm { own, spot }
        } else {
            Sentence::Unmet { own, needs }
        }
    }

    /// Whether this part is expected at its place.
    fn is_due(&self, due: &str) -> bool {
        match self.spot(FileKind::Certificate) {
            Spot::Due { part, .. } => part == due,
            _ => false,
        }
    }

    /// The action that it names has another number of arguments.
    fn arguments(&self, word: &'a str) -> Option<Sentence<'a>> {
        let action = seek(self.bytes, Sort::Action, word).declared()?;
        let due = list_count(action.bytes, action.item(3)?);
        let given = list_count(self.bytes, self.place).checked_sub(1)?;
        if due == given {
            return None;
        }
        Some(Sentence::Arguments {
            action: word,
            due,
            given,
        })
    }

    /// Why a list of this word does not fit, if that is a mistake that is often made.
    fn known_mistake(&self, word: &'a str) -> Option<Sentence<'a>> {
        let list = self.list;
        if list.word == "on" && list.part == 2 {
            return self.arguments(word);
        }
        if list.word == "object" {
            let before = self.bytes.get(..self.place.offset)?;
            let before = before.get(list.offset..)?.get(1..)?;
            let disorder = disorder_of(before, word)?;
            return Some(Sentence::OutOfOrder { word, disorder });
        }
        let written = written_for(word);
        if written.is_empty() || form_of(word, list.word).is_some() {
            return None;
        }
        Some(Sentence::Operator { word, written })
    }

    /// Its shape is wrong.
    fn unfit(&self, kind: FileKind) -> Sentence<'a> {
        let spot = self.spot(kind);
        if let Some(word) = self.word() {
            if begins_comment(word) {
                return Sentence::Said(&OTHER_COMMENT, "");
            }
            let what = What::Atom(word);
            return Sentence::Unfit { what, spot };
        }
        let word = first_word(self.bytes, self.place);
        if word.is_empty() {
            let what = What::List;
            return Sentence::Unfit { what, spot };
        }
        if let Some(sentence) = self.known_mistake(word) {
            return sentence;
        }
        match form_of(word, self.list.word) {
            Some(own) if fits_in(word, spot) => self.unfit_list(word, own, spot),
            _ => Sentence::Unfit {
                what: What::ListOf(word),
                spot,
            },
        }
    }

    /// Whether it is in a proof or in hints, where variables have no names.
    fn is_in_proof(&self, kind: FileKind) -> bool {
        match kind {
            FileKind::Certificate | FileKind::Hints => true,
            FileKind::Formula => match proof_place(self.bytes, None) {
                Some(proof) => proof.offset < self.place.offset,
                None => false,
            },
            _ => false,
        }
    }

    /// What may be meant by a name that is not declared.
    fn meant(&self, sort: Sort, name: &'a str) -> Meant<'a> {
        if sort == Sort::Variable && is_column(self.bytes, name) {
            return Meant::Column(name);
        }
        let sought = seek(self.bytes, sort, name);
        if let Some(near) = sought.nearest() {
            return Meant::Near(near);
        }
        if sort != Sort::Column {
            return Meant::Unknown;
        }
        if name == "self" || seek(self.bytes, Sort::Variable, name).declared().is_some() {
            return Meant::NoColumn(name);
        }
        if has_list(self.bytes, "object") && !has_list(self.bytes, "aux") {
            return Meant::Auxiliary(name);
        }
        Meant::Unknown
    }

    /// It is a name that is not declared.
    fn undeclared(&self, kind: FileKind) -> Sentence<'a> {
        let name = self.text();
        let sort = match (self.list.part, self.outer.word, self.outer.part) {
            (0, "on", 2) => Sort::Action,
            (0, "action", _) => Sort::Column,
            (0, "", _) if matches!(self.third.word, "branch" | "choice") => Sort::Column,
            (0, _, _) => Sort::Variable,
            (part, outer, _) => sort_at(self.list.word, outer, part),
        };
        if sort == Sort::Variable && self.is_in_proof(kind) {
            return Sentence::Said(&UNDECLARED_IN_PROOF, name);
        }
        Sentence::Undeclared {
            noun: sort.noun(),
            name,
            meant: self.meant(sort, name),
        }
    }

    /// It is a name that may not be declared here.
    fn repeated(&self) -> Sentence<'a> {
        let name = self.text();
        if is_reserved(name) {
            return Sentence::Said(&RESERVED, name);
        }
        let noun = if is_name(name.as_bytes()) {
            "name"
        } else {
            "client"
        };
        Sentence::Twice { noun, name }
    }

    /// The column that it reads, if it is a term that reads one.
    fn read_column(&self) -> Option<&'a str> {
        let number = self.number.checked_add(2)?;
        word_at(self.bytes, item_place(self.bytes, number)?)
    }

    /// It reads a column that the code does not see.
    fn auxiliary(&self) -> Sentence<'a> {
        Sentence::Said(&NOT_ITS_OWN, self.read_column().unwrap_or(""))
    }

    /// It is beyond a limit.
    fn beyond(&self) -> Sentence<'a> {
        let Some(word) = self.word() else {
            return too_many_lists(first_word(self.bytes, self.place), self.list.word);
        };
        if self.list.word == "op" && self.list.part == 3 {
            return Sentence::TooMany {
                owner: "an operation",
                limit: u64::from(REPLY_LIMIT),
                parts: "replies",
            };
        }
        if !is_name(word.as_bytes()) {
            return Sentence::Said(&BEYOND, word);
        }
        if word.len() > NAME_LIMIT {
            return Sentence::TooMany {
                owner: "a name",
                limit: NAME_LIMIT as u64,
                parts: "bytes",
            };
        }
        too_many_names(self.outer)
    }

    /// It does not fit into a certificate, by its shape, its name or a limit.
    fn unfit_in_certificate(&self) -> Sentence<'a> {
        let Some(word) = self.word() else {
            return self.unfit(FileKind::Certificate);
        };
        match (self.list.word, self.list.part) {
            ("certificate", 1) => Sentence::Said(&OTHER_OBJECT, word),
            ("proof", 1) => Sentence::Said(&NO_NEXT_CONDITION, word),
            ("rd" | "written" | "same" | "store", 1) if is_name(word.as_bytes()) => {
                self.undeclared(FileKind::Certificate)
            }
            ("forall" | "exists", 1) if is_reserved(word) => Sentence::Said(&RESERVED, word),
            _ if is_long_number(word) => Sentence::Said(&BEYOND, word),
            _ if is_name(word.as_bytes()) && self.is_due("T") => Sentence::Said(
                &UNDECLARED_IN_PROOF,
                word,
            ),
            _ => self.unfit(FileKind::Certificate),
        }
    }
}

/// Whether these are digits alone.
fn are_digits(text: &[u8]) -> bool {
    for byte in text {
        if !byte.is_ascii_digit() {
            return false;
        }
    }
    true
}

/// Whether an atom is a number, or that of a variable, with more digits than its limit has.
fn is_long_number(word: &str) -> bool {
    let text = word.as_bytes();
    let (begin, most) = match text.first() {
        Some(b'?') => (1, 9),
        Some(b'-') => (1, 18),
        _ => (0, 18),
    };
    let digits = text.get(begin..).unwrap_or(&[]);
    most < digits.len() && are_digits(digits)
}

/// What is wrong with a character outside of comments.
fn misplaced_character(bytes: &[u8], place: Place) -> Sentence<'_> {
    if is_other_comment(bytes, place.offset) {
        return Sentence::Said(&OTHER_COMMENT, "");
    }
    let sign = operator_at(bytes, place.offset);
    let written = written_for(sign);
    if written.is_empty() {
        Sentence::Said(&MISPLACED, word_at(bytes, place).unwrap_or(""))
    } else {
        Sentence::Operator {
            word: sign,
            written,
        }
    }
}

/// What is wrong with a byte of the text.
fn misplaced<'a>(bytes: &'a [u8], offset: u64, place: Place) -> Sentence<'a> {
    if offset >= FILE_LIMIT {
        return Sentence::TooMany {
            owner: "a file",
            limit: FILE_LIMIT,
            parts: "bytes",
        };
    }
    if offset >= bytes.len() as u64 {
        return Sentence::Said(&NEVER_CLOSED, "");
    }
    match bytes.get(place.offset).copied() {
        Some(b')') => Sentence::Said(&CLOSES_NOTHING, ""),
        Some(b'(') => {
            Sentence::TooMany {
                owner: "a file",
                limit: DEPTH_LIMIT as u64,
                parts: "lists in one another",
            }
        }
        Some(byte) if byte.is_ascii_graphic() => misplaced_character(bytes, place),
        _ if is_other_comment(bytes, place.offset) => Sentence::Said(&OTHER_COMMENT, ""),
        _ => Sentence::Said(&OTHER_BYTE, ""),
    }
}

/// Another kind of file that this one looks like.
fn other_kind(kind: FileKind, bytes: &[u8]) -> Option<FileKind> {
    let seen = looks_like(bytes)?;
    if kind.takes(seen) { None } else { Some(seen) }
}

/// The sentence that is said of a refusal, which tells this place of the file. `kind` is what the file is read as.
pub(crate) fn sentence_of<'a>(
    kind: FileKind,
    bytes: &'a [u8],
    refusal: &Refusal,
    place: Place,
) -> Sentence<'a> {
    if let Some(seen) = other_kind(kind, bytes) {
        return Sentence::OtherFile { seen, due: kind };
    }
    match refusal {
        Refusal::Text(offset) | Refusal::CertText(offset) => misplaced(bytes, *offset, place),
        _ if place.offset >= bytes.len() => Sentence::ends_here(kind),
        Refusal::Shape(item) => Refused::new(bytes, *item, place).unfit(kind),
        Refusal::Unknown(item) => Refused::new(bytes, *item, place).undeclared(kind),
        Refusal::Repeated(item) => Refused::new(bytes, *item, place).repeated(),
        Refusal::Auxiliary(item) => Refused::new(bytes, *item, place).auxiliary(),
        Refusal::Bound(item) => Refused::new(bytes, *item, place).beyond(),
        Refusal::CertShape(item) => Refused::new(bytes, *item, place).unfit_in_certificate(),
        _ => Sentence::limit(),
    }
}
