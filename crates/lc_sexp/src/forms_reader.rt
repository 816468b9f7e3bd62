//! How the forms of a file are read that comes in pieces.
use crate::forms::Forms;
use crate::machine::Machine;
use lc_base::{Fault, OutOfMemory, Refusal};
use std::alloc::Global;

/// Reads the forms of a file that comes in pieces, and holds no more than they are. A fault of the text is reported at
/// the end; once out of memory it returns `OutOfMemory` from then on.
#[derive(Drop)]
pub struct FormsReader {
    machine: Machine,
    fault: Option<u64>,
    out_of_memory: bool,
}

impl FormsReader {
    ghost use Rattle.std.specs.Prelude.{◌≡◌, ℕ, List, [], ◌++◌, false, true, Err, OnOk, is_err};
    ghost use Rattle.lc_base.specs.declared.refusal.Fault.TheVariants.{OutOfMemory as NoMemory};
    ghost use Rattle.lc_sexp.specs.Answers.{IsAnswerTo};
    ghost use Rattle.lc_sexp.specs.Pieces.{WasFed, is_spent};

    /// A reader that has been fed nothing.
    pub fn new(alloc: Global) -> FormsReader
        ensures start { WasFed result [] }
        ensures memory { is_spent result ≡ false }
    {
        FormsReader {
            machine: Machine::new(alloc),
            fault: None,
            out_of_memory: false,
        }
    }

    /// Takes bytes that come after what was fed, up to the first fault.
    fn feed_all(&mut self, piece: &[u8]) -> Result<(), OutOfMemory>
        ensures fed { OnOk result ((fed : List ℕ) → WasFed self.old fed → WasFed self.new (fed ++ piece.now)) }
    {
        if self.fault.is_some() {
            return Ok(());
        }
        if self.machine.push_all(piece)? {
            return Ok(());
        }
        self.fault = Some(self.machine.offset());
        Ok(())
    }

    /// Takes the next piece of the file, which may be empty.
    pub fn feed(&mut self, piece: &[u8]) -> Result<(), OutOfMemory>
        ensures fed { OnOk result ((fed : List ℕ) → WasFed self.old fed → WasFed self.new (fed ++ piece.now)) }
        ensures spent { is_spent self.new ≡ is_err result }
        ensures never_again { is_spent self.old ≡ true → is_err result ≡ true }
    {
        if self.out_of_memory {
            return Err(OutOfMemory);
        }
        let fed = self.feed_all(piece);
        self.out_of_memory = fed.is_err();
        fed
    }

    /// The forms of the file, which ends here, or its first fault.
    pub fn finish(self) -> Result<Forms, Fault>
        ensures answer { (fed : List ℕ) → WasFed self fed → IsAnswerTo fed result }
        ensures never_again { is_spent self ≡ true → result ≡ Err NoMemory }
    {
        if self.out_of_memory {
            return Err(Fault::OutOfMemory);
        }
        if let Some(offset) = self.fault {
            return Err(Fault::Refused(Refusal::Text(offset)));
        }
        self.machine.finish()
    }
}
