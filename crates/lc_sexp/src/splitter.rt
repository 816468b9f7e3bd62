//! How a text is read whose parts are set aside as they end.
ghost use Rattle.std.specs.Prelude.{◌≡◌, ◌≢◌, ◌+◌, ◌≤◌, ◌<◌, ◌++◌, ℕ, List, [], ◌∷◌, length, take, Some, None, false, true, not, if◌then◌else◌, OnOk, IfOk, IfErr, vec_len};
ghost use Rattle.lc_base.specs.Limits.{file_limit};
ghost use Rattle.lc_sexp.specs.Trees.{Trees, Token, item_count, tokens_of_all};
ghost use Rattle.lc_sexp.specs.Text.{class_of, is_misplaced, begins_word, uncommented, lexed};
ghost use Rattle.lc_sexp.specs.Runs.{AreSeen};
ghost use Rattle.lc_sexp.specs.Progress.{depth_behind, fault_from};
ghost use Rattle.lc_sexp.specs.Splitting.{Splits, depth_of};
ghost use Rattle.lc_sexp.specs.Words.{EndsWord, StaysPut};
ghost use Rattle.lc_sexp.specs.Reading.{tokens_behind};
ghost use Rattle.lc_sexp.specs.Takes.{parts_of, without};
ghost use Rattle.lc_sexp.specs.Answers.{IsTextFault};
ghost use Rattle.lc_sexp.specs.declared.part.Part.{Part};
ghost use Rattle.lc_sexp.specs.declared.class.Class.TheVariants.{Open as OpenClass, Close as CloseClass};

use crate::builder::Builder;
use crate::class::{Class, misplaced_within};
use crate::filling::fill;
use crate::forms::Forms;
use crate::machine::Machine;
use crate::part::Part;
use crate::run::{Run, first_run, is_word_before_white};
use crate::sexp::Sexp;
use lc_base::{Fault, OutOfMemory, Refusal};
use std::alloc::Global;
use std::collections::VecDeque;

/// A text as far as it was read, whose parts, the items directly inside a list that is a form, are set aside
/// as they end. The machine holds only the item that is under way.
#[derive(Drop)]
pub(crate) struct Splitter {
    pub(crate) alloc: Global,
    pub(crate) machine: Machine,
    /// Whether a list that is a form is open. Its bracket is not the machine's.
    in_list: bool,
    /// The forms that have ended, without their parts.
    ended: Builder,
    /// The parts that have ended and were not taken.
    pub(crate) ready: VecDeque<Part>,
    /// How many forms have ended, and how many items have begun.
    form: u64,
    item: u64,
}

impl Splitter {
    pub(crate) fn new(alloc: Global) -> Splitter
        ensures splits { Splits (tokens_behind []) (uncommented false) [] result }
        ensures offset { result.machine.offset ≡ 0 }
        ensures depth { depth_of result ≡ 0 }
        ensures comment { result.machine.in_comment ≡ false }
    {
        Splitter {
            alloc,
            machine: Machine::new(alloc),
            in_list: false,
            ended: Builder::new(alloc),
            ready: VecDeque::new(alloc),
            form: 0,
            item: 0,
        }
    }

    /// Sets an item aside that has ended directly in a form.
    fn set_aside(&mut self, sexp: Sexp) -> Result<(), OutOfMemory>
        ensures ready { OnOk result (self.new.ready.items ≡ self.old.ready.items
            ++ (record { form = self.old.form; item = self.old.item; sexp = sexp } ∷ [])) }
        ensures item { OnOk result (self.new.item ≡ self.old.item + item_count sexp) }
        ensures form { self.new.form ≡ self.old.form }
        ensures machine { self.new.machine ≡ self.old.machine }
        ensures in_list { self.new.in_list ≡ self.old.in_list }
        ensures ended { self.new.ended ≡ self.old.ended }
    {
        let item = self.item;
        self.item = behind(item, sexp.item_count() as u64)?;
        self.ready.push_back(Part {
            form: self.form,
            item,
            sexp,
        })?;
        Ok(())
    }

    /// Ends the word that has begun, if one has.
    fn end_word(&mut self) -> Result<(), OutOfMemory>
        ensures word { OnOk result (EndsWord self.old self.new) }
        ensures place { StaysPut self.old self.new }
    {
        if self.machine.word().is_empty() {
            return Ok(());
        }
        if self.machine.depth() > 0 {
            self.machine.end_word()?;
            return Ok(());
        }
        self.end_begun_word()
    }

    /// Ends the word that has begun, if no list is open but a form. It is a function of its own, so that the tests before it cost no call.
    #[inline(never)]
    fn end_begun_word(&mut self) -> Result<(), OutOfMemory>
        requires begun { self.old.machine.start ≢ vec_len self.old.machine.text }
        requires outer { vec_len self.old.machine.holes ≡ 0 }
        ensures word { OnOk result (EndsWord self.old self.new) }
        ensures place { StaysPut self.old self.new }
    {
        let word = self.machine.word();
        if self.in_list {
            let sexp = Sexp::of_letters(self.alloc, word)?;
            self.machine.drop_word();
            self.set_aside(sexp)?;
            return Ok(());
        }
        self.ended.push_atom(word)?;
        self.machine.drop_word();
        self.form = behind(self.form, 1)?;
        self.item = behind(self.item, 1)?;
        Ok(())
    }

    /// Begins a list.
    fn open_list(&mut self) -> Result<(), OutOfMemory>
        requires ended { self.old.machine.start ≡ vec_len self.old.machine.text }
        requires room { vec_len self.old.machine.nodes < self.old.machine.offset }
        ensures splits { OnOk result ((whole : List ℕ → List Token) → (rest : List ℕ → List ℕ) → (taken : List Part) → (byte : ℕ) →
            class_of byte ≡ OpenClass →
            Splits whole (λ x. byte ∷ rest x) taken self.old → Splits whole rest taken self.new) }
        ensures depth { OnOk result (depth_of self.new ≡ depth_of self.old + 1) }
        ensures offset { self.new.machine.offset ≡ self.old.machine.offset }
        ensures comment { self.new.machine.in_comment ≡ self.old.machine.in_comment }
    {
        if self.in_list {
            self.machine.open_list()?;
            return Ok(());
        }
        self.item = behind(self.item, 1)?;
        self.in_list = true;
        Ok(())
    }

    /// Ends the form that is open.
    fn end_form(&mut self) -> Result<(), OutOfMemory>
        requires ended { self.old.machine.start ≡ vec_len self.old.machine.text }
        ensures splits { OnOk result ((whole : List ℕ → List Token) → (rest : List ℕ → List ℕ) → (taken : List Part) → (byte : ℕ) →
            class_of byte ≡ CloseClass → self.old.in_list ≡ true → self.old.machine.holes.items ≡ [] →
            Splits whole (λ x. byte ∷ rest x) taken self.old → Splits whole rest taken self.new) }
        ensures in_list { OnOk result (self.new.in_list ≡ false) }
        ensures machine { self.new.machine ≡ self.old.machine }
    {
        self.ended.push_list(0)?;
        self.form = behind(self.form, 1)?;
        self.in_list = false;
        Ok(())
    }

    /// Ends the innermost list.
    fn close_list(&mut self) -> Result<(), OutOfMemory>
        requires ended { self.old.machine.start ≡ vec_len self.old.machine.text }
        requires some { 0 < depth_of self.old }
        ensures splits { OnOk result ((whole : List ℕ → List Token) → (rest : List ℕ → List ℕ) → (taken : List Part) → (byte : ℕ) →
            class_of byte ≡ CloseClass →
            Splits whole (λ x. byte ∷ rest x) taken self.old → Splits whole rest taken self.new) }
        ensures depth { OnOk result (depth_of self.new + 1 ≡ depth_of self.old) }
        ensures offset { self.new.machine.offset ≡ self.old.machine.offset }
        ensures comment { self.new.machine.in_comment ≡ self.old.machine.in_comment }
    {
        match self.machine.depth() {
            0 => self.end_form()?,
            1 => {
                let sexp = self.machine.cut_list(self.alloc)?;
                self.set_aside(sexp)?;
            }
            _ => self.machine.close_list(),
        }
        Ok(())
    }

    /// Takes a run of these bytes; whether it is not misplaced.
    fn take_run(&mut self, run: Run, bytes: &[u8]) -> Result<bool, OutOfMemory>
        requires some { 0 < length bytes.now }
        requires length { run.length ≡ length bytes.now }
        requires seen { (seen : List ℕ) × AreSeen run.class bytes.now seen }
        requires room { self.old.machine.offset + run.length ≤ file_limit }
        ensures splits { IfOk result (λ went. went ≡ true → (whole : List ℕ → List Token) → (rest : List ℕ → List ℕ) → (taken : List Part) → (seen : List ℕ) →
            AreSeen run.class bytes.now seen →
            Splits whole (λ x. seen ++ rest x) taken self.old → Splits whole rest taken self.new) }
        ensures placed { IfOk result (λ went. is_misplaced (depth_of self.old) run.class ≡ not went) }
        ensures depth { IfOk result (λ went. went ≡ true → depth_of self.new ≡ depth_behind (depth_of self.old) run.class) }
        ensures offset { IfOk result (λ went. went ≡ true → self.new.machine.offset ≡ self.old.machine.offset + run.length) }
        ensures comment { IfOk result (λ went. went ≡ true → self.new.machine.in_comment ≡ run.in_comment) }
        ensures same { IfOk result (λ went. went ≡ false → self.new ≡ self.old) }
    {
        match run.class {
            Class::Letter => {
                self.machine.advance(run.length, run.in_comment);
                self.machine.push_letters(bytes)?;
            }
            Class::White => {
                self.machine.advance(run.length, run.in_comment);
                self.end_word()?;
            }
            Class::Open => {
                if misplaced_within(self.machine.depth(), self.in_list, Class::Open) {
                    return Ok(false);
                }
                self.machine.advance(run.length, run.in_comment);
                self.end_word()?;
                self.open_list()?;
            }
            Class::Close => {
                if misplaced_within(self.machine.depth(), self.in_list, Class::Close) {
                    return Ok(false);
                }
                self.machine.advance(run.length, run.in_comment);
                self.end_word()?;
                self.close_list()?;
            }
            Class::Other => return Ok(false),
        }
        Ok(true)
    }

    /// Takes the run at the front of these bytes of the file, a word with the white byte after it if there is one,
    /// and returns how many bytes these are. If it is misplaced, nothing changes, and the offset is that of the first fault.
    pub(crate) fn push_run(&mut self, bytes: &[u8]) -> Result<usize, OutOfMemory>
        requires some { 0 < length bytes.now }
        requires room { self.old.machine.offset + length bytes.now ≤ file_limit }
        ensures within { IfOk result (λ count. count ≤ length bytes.now) }
        ensures splits { IfOk result (λ count. 0 < count → (whole : List ℕ → List Token) → (taken : List Part) →
            Splits whole (uncommented self.old.machine.in_comment) taken self.old →
            Splits (λ x. whole (take count bytes.now ++ x)) (uncommented self.new.machine.in_comment) taken self.new) }
        ensures fault { IfOk result (λ count. 0 < count → (rest : List ℕ) →
            fault_from self.new.machine.offset (depth_of self.new) (uncommented self.new.machine.in_comment rest)
            ≡ fault_from self.old.machine.offset (depth_of self.old) (uncommented self.old.machine.in_comment (take count bytes.now ++ rest))) }
        ensures wrong { IfOk result (λ count. count ≡ 0 → (rest : List ℕ) →
            fault_from self.old.machine.offset (depth_of self.old) (uncommented self.old.machine.in_comment (bytes.now ++ rest)) ≡ Some self.old.machine.offset) }
        ensures offset { IfOk result (λ count. self.new.machine.offset ≡ self.old.machine.offset + count) }
        ensures same { IfOk result (λ count. count ≡ 0 → self.new ≡ self.old) }
    {
        let run = first_run(bytes, self.machine.in_comment());
        if !self.take_run(run, &bytes[..run.length])? {
            return Ok(0);
        }
        if is_word_before_white(run, bytes) {
            self.machine.advance(1, false);
            self.end_word()?;
            return Ok(run.length + 1);
        }
        Ok(run.length)
    }

    /// The forms of the text, which ends here, without the parts that were taken.
    pub(crate) fn finish(mut self) -> Result<Forms, Fault>
        ensures answer { IfOk result (λ forms. (whole : List Token) → (taken : List Part) → Splits (λ x. whole) (λ x. []) taken self →
            (trees : Trees) × (tokens_of_all trees ≡ whole) × (taken ≡ take (length taken) (parts_of trees))
            × (forms ≡ without (length taken) trees)) }
        ensures sound { OnOk result (fault_from self.machine.offset (depth_of self) [] ≡ None) }
        ensures err { IfErr result (λ e. IsTextFault e (λ offset. fault_from self.machine.offset (depth_of self) [] ≡ Some offset)) }
    {
        if self.in_list {
            return Err(Fault::Refused(Refusal::Text(self.machine.offset())));
        }
        if self.machine.depth() != 0 {
            return Err(Fault::Refused(Refusal::Text(self.machine.offset())));
        }
        self.end_word()?;
        let Splitter {
            alloc,
            ended,
            ready,
            ..
        } = self;
        Ok(fill(alloc, &ended, ready)?)
    }
}

/// The number that comes `more` after another.
fn behind(number: u64, more: u64) -> Result<u64, OutOfMemory>
    ensures { IfOk result (λ sum. sum ≡ number + more) }
{
    number.checked_add(more).ok_or(OutOfMemory)
}
