//! What the program promises: each promise again, over the call that keeps it. The planted bugs of the program are here: bodies that
//! return something wrong where the call returns what is right.
#![tactic(auto)]

ghost use Rattle.std.specs.Prelude.{◌≡◌, ◌⊎◌, Bool, List, None, Some, codes, false, ℕ};
ghost use Rattle.lc_cond_text.specs.ConditionText.{conditions_text};
ghost use Rattle.lc_lib_texts.specs.Texts.{development_bytes};
ghost use Rattle.lc_words.specs.Reading.{AreWrong};
ghost use Rattle.lc_words.specs.Tasks.{BeginDevelopment, ByPlan, CarryWithHints, CheckByWorkers, CheckCertificate, CheckFormula, DrawHistory, ExploreRuns, FindOrder, JudgeHistory, ListConditions, MakeWhole, PrintLibrary, ProveWithHints, RunPlan, ShowLines, Task, texts_of};
ghost use Rattle.lc_words.specs.declared.request.LibraryText.TheVariants.{Development};
ghost use Rattle.lc_words.specs.declared.request.Shown.{Shown};
ghost use Rattle.lc_words.specs.declared.request.Turns.{Turns};
ghost use Rattle.lincheck.specs.Carry.{AnswersCarry, AnswersWith};
ghost use Rattle.lincheck.specs.Check.{AnswersCheck, AnswersDevelopment};
ghost use Rattle.lincheck.specs.Complete.{AnswersComplete};
ghost use Rattle.lincheck.specs.Draw.{AnswersDraw};
ghost use Rattle.lincheck.specs.Execution.{AnswersTask};
ghost use Rattle.lincheck.specs.Explore.{AnswersExplore};
ghost use Rattle.lincheck.specs.Formula.{AnswersFormula};
ghost use Rattle.lincheck.specs.Judge.{AnswersJudge};
ghost use Rattle.lincheck.specs.Lines.{AnswersLines};
ghost use Rattle.lincheck.specs.New.{AnswersNew};
ghost use Rattle.lincheck.specs.Order.{AnswersOrder};
ghost use Rattle.lincheck.specs.Prove.{AnswersHinted};
ghost use Rattle.lincheck.specs.Run.{AnswersRun};
ghost use Rattle.lincheck_claims.specs.Endings.{EndsWith};
ghost use Rattle.lincheck_claims.specs.Folders.{file_at};

mod files;

pub use files::Folder;
use lc_lib_texts::Lib;
use lincheck::{Files, execute};
use std::alloc::Global;
use std::sync::Wait;
use std::thread::Threads;

/// The program with what it is given: the words of its command line, and files at the paths `a`, `b`, `c` and `d`.
pub struct Program<'a, R> {
    pub rt: &'a R,
    pub alloc: Global,
    pub words: &'a [String],
    pub files: Folder<'a>,
}

impl<'a, R: Threads + Wait + Sync> Program<'a, R> {
    // Runs it, and returns its exit status.
    fn execute(&mut self, text: &mut Vec<u8>, err: &mut Vec<u8>) -> u8
        ensures { let files = self.old.files in (task : Task) → EndsWith (texts_of self.old.words.now) task (AnswersTask (file_at files.0.now files.1.now files.2.now files.3.now) task) text.old.items text.new.items result }
    {
        execute(self.rt, self.alloc, self.words, &mut self.files, text, err)
    }

    /// `formula` prints the answer to the file, whatever its length.
    pub fn checking_a_formula(&mut self, answer: &mut Vec<u8>, err: &mut Vec<u8>) -> u8
        ensures { EndsWith (texts_of self.old.words.now) (CheckFormula (codes "a")) (AnswersFormula self.old.files.0.now) answer.old.items answer.new.items result }
    {
        self.execute(answer, err)
    }

    /// `judge` prints the answer to a development and a history.
    pub fn judging_a_history(&mut self, judgement: &mut Vec<u8>, err: &mut Vec<u8>) -> u8
        ensures { EndsWith (texts_of self.old.words.now) (JudgeHistory (codes "a") (codes "b")) (AnswersJudge self.old.files.0.now (Some self.old.files.1.now)) judgement.old.items judgement.new.items result }
    {
        self.execute(judgement, err)
    }

    /// `order` prints a history with an order that linearizes it, or that none does.
    pub fn ordering_a_history(&mut self, decision: &mut Vec<u8>, err: &mut Vec<u8>) -> u8
        ensures { EndsWith (texts_of self.old.words.now) (FindOrder (codes "a") (codes "b") false None) (AnswersOrder false self.old.files.0.now (Some self.old.files.1.now)) decision.old.items decision.new.items result }
    {
        self.execute(decision, err)
    }

    /// `complete` prints a development that completes a short one.
    pub fn making_whole(&mut self, whole: &mut Vec<u8>, err: &mut Vec<u8>) -> u8
        ensures { EndsWith (texts_of self.old.words.now) (MakeWhole (codes "a") None) (AnswersComplete self.old.files.0.now) whole.old.items whole.new.items result }
    {
        self.execute(whole, err)
    }

    /// `explore` prints what exploring a development by a plan finds, or its object alone.
    pub fn exploring(&mut self, found: &mut Vec<u8>, err: &mut Vec<u8>) -> u8
        ensures { let files = self.old.files in (bare : Bool) → EndsWith (texts_of self.old.words.now) (ExploreRuns (codes "a") (ByPlan (codes "b")) bare None)
            (AnswersExplore (file_at files.0.now files.1.now files.2.now files.3.now) bare None (ByPlan (codes "b")) files.0.now) found.old.items found.new.items result }
    {
        self.execute(found, err)
    }

    /// `conditions` prints a line for each condition of a development. On `OutOfMemory` a beginning of them may have been written.
    pub fn listing_conditions(&mut self, lines: &mut Vec<u8>, err: &mut Vec<u8>) -> u8
        ensures { EndsWith (texts_of self.old.words.now) (ListConditions (codes "a")) (AnswersDevelopment conditions_text self.old.files.0.now) lines.old.items lines.new.items result }
    {
        self.execute(lines, err)
    }

    /// `check` prints the verdict on a development and a certificate.
    pub fn checking(&mut self, verdict: &mut Vec<u8>, err: &mut Vec<u8>) -> u8
        ensures { EndsWith (texts_of self.old.words.now) (CheckCertificate (codes "a") (codes "b")) (AnswersCheck self.old.files.0.now (Some self.old.files.1.now)) verdict.old.items verdict.new.items result }
    {
        self.execute(verdict, err)
    }

    /// `check` prints the same verdict for every number of workers.
    pub fn checking_by_workers(&mut self, common_verdict: &mut Vec<u8>, err: &mut Vec<u8>) -> u8
        ensures { (workers : ℕ) → EndsWith (texts_of self.old.words.now) (CheckByWorkers (codes "a") (codes "b") workers) (AnswersCheck self.old.files.0.now (Some self.old.files.1.now)) common_verdict.old.items common_verdict.new.items result }
    {
        self.execute(common_verdict, err)
    }

    /// `prove` with hints prints a certificate, in which each condition has the first proof of the hints that holds.
    pub fn proving(&mut self, certificate: &mut Vec<u8>, err: &mut Vec<u8>) -> u8
        ensures { EndsWith (texts_of self.old.words.now) (ProveWithHints (codes "a") (codes "b")) (AnswersHinted self.old.files.0.now (Some self.old.files.1.now)) certificate.old.items certificate.new.items result }
    {
        self.execute(certificate, err)
    }

    /// `carry` with hints prints a certificate of the new development, with the proofs of the old one that still hold.
    pub fn carrying(&mut self, carried: &mut Vec<u8>, err: &mut Vec<u8>) -> u8
        ensures { EndsWith (texts_of self.old.words.now) (CarryWithHints (codes "a") (codes "b") (codes "c") (codes "d"))
            (AnswersCarry (AnswersWith (Some (Some self.old.files.3.now))) self.old.files.0.now (Some self.old.files.1.now) (Some self.old.files.2.now)) carried.old.items carried.new.items result }
    {
        self.execute(carried, err)
    }

    /// `run` prints what clients did by a plan, with the number of the entries of an order that linearizes it; with seeds a line for each
    /// run, in their order; with a trace a line for each step.
    pub fn running(&mut self, deeds: &mut Vec<u8>, err: &mut Vec<u8>) -> u8
        ensures { (turns : Turns) → EndsWith (texts_of self.old.words.now) (RunPlan (codes "a") (codes "b") (codes "c") turns)
            (AnswersRun turns self.old.files.0.now (Some self.old.files.1.now) (Some self.old.files.2.now)) deeds.old.items deeds.new.items result }
    {
        self.execute(deeds, err)
    }

    /// `show` with `--lines` prints a development laid out over lines.
    pub fn laying_out(&mut self, layout: &mut Vec<u8>, err: &mut Vec<u8>) -> u8
        ensures { EndsWith (texts_of self.old.words.now) (ShowLines (codes "a")) (AnswersLines self.old.files.0.now) layout.old.items layout.new.items result }
    {
        self.execute(layout, err)
    }

    /// `draw` prints a picture of a history, or with `--html` a page, or with `--around` what is near an entry of its order, or the
    /// refusal of what is none.
    pub fn drawing(&mut self, picture: &mut Vec<u8>, err: &mut Vec<u8>) -> u8
        ensures { (shown : Shown) → EndsWith (texts_of self.old.words.now) (DrawHistory (codes "a") (codes "b") shown) (AnswersDraw shown self.old.files.0.now (Some self.old.files.1.now)) picture.old.items picture.new.items result }
    {
        self.execute(picture, err)
    }

    /// `new` prints a short development of a name.
    pub fn beginning(&mut self, development: &mut Vec<u8>, err: &mut Vec<u8>) -> u8
        ensures { (name : List ℕ) → EndsWith (texts_of self.old.words.now) (BeginDevelopment name) (AnswersNew name) development.old.items development.new.items result }
    {
        self.execute(development, err)
    }

    /// `library` prints the development of an object.
    pub fn printing_an_object(&mut self, lib: Lib, object: &mut Vec<u8>, err: &mut Vec<u8>) -> u8
        ensures { EndsWith (texts_of self.old.words.now) (PrintLibrary lib Development) (λ said status. (said ≡ development_bytes lib) × (status ≡ 0)) object.old.items object.new.items result }
    {
        self.execute(object, err)
    }

    /// `formula` prints the answer to some bytes, whatever files it is given, also those of the system.
    pub fn checking_any_file<F: Files>(
        &self,
        files: &mut F,
        reply: &mut Vec<u8>,
        err: &mut Vec<u8>,
    ) -> u8
        ensures { (path : List ℕ) → EndsWith (texts_of self.now.words.now) (CheckFormula path) (λ text status. (file : List ℕ) × AnswersFormula file text status) reply.old.items reply.new.items result }
    {
        execute(self.rt, self.alloc, self.words, files, reply, err)
    }

    /// A command line fault has its status, or that of running out of memory; nothing is printed, and no file is opened.
    pub fn refusing<F: Files>(&self, files: &mut F, out: &mut Vec<u8>, err: &mut Vec<u8>) -> u8
        ensures { AreWrong (texts_of self.now.words.now) → ((result ≡ 2) ⊎ (result ≡ 4)) × (out.new ≡ out.old) × (files.new ≡ files.old) }
    {
        execute(self.rt, self.alloc, self.words, files, out, err)
    }
}
