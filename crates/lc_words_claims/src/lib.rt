//! What the call that reads the words of the command line promises: its promise again, over the call that keeps it. Its planted bugs
//! are here: bodies that return something wrong where the call returns what is right.
#![tactic(auto)]

ghost use Rattle.std.specs.Prelude.{◌≡◌, ◌⊎◌, IfErr, IfOk, IsErrAnd};
ghost use Rattle.clap.specs.Words.{kind_of, subcommand_of};
ghost use Rattle.clap.specs.declared.error.kind.ErrorKind.TheVariants.{OutOfMemory};
ghost use Rattle.lc_words.specs.Commands.{program_app};
ghost use Rattle.lc_words.specs.Reading.{AreWrong, AskFor, AskForHelp, AsksForText, Reads, is_explained};
ghost use Rattle.lc_words.specs.Tasks.{Task, texts_of};

use clap::Error;
use lc_words::{Asked, read_words};
use std::alloc::Global;

/// Words are read as the task that they ask for; words that ask for none are answered with an error, which tells a fault, or has
/// the text that they ask for.
pub fn reading_words<'a>(alloc: Global, words: &'a [String]) -> Result<Asked<'a>, Error>
    ensures reads { IfOk result (λ asked. Reads (texts_of words.entry.now) asked.request) }
    ensures explained { IfOk result (λ asked. asked.is_explained ≡ is_explained (subcommand_of program_app (texts_of words.entry.now))) }
    ensures taken { IfErr result (λ error. (task : Task) → AskFor (texts_of words.entry.now) task → kind_of error ≡ OutOfMemory) }
    ensures wrong { AreWrong (texts_of words.entry.now) → IsErrAnd result (λ error. AsksForText (kind_of error) → ⊥) }
    ensures help { AskForHelp (texts_of words.entry.now) → IsErrAnd result (λ error. (kind_of error ≡ OutOfMemory) ⊎ AsksForText (kind_of error)) }
{
    read_words(alloc, words)
}
