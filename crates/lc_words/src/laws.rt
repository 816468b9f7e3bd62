//! What holds of words and tasks. Each function is a law: it does nothing, and its contract is the law.
ghost use Rattle.std.specs.Prelude.{ℕ, List, codes, [], ◌∷◌, ◌++◌};
ghost use Rattle.lc_words.specs.Reading.{AskFor, AskForReasons};
ghost use Rattle.lc_words.specs.Tasks.{HasPlainPaths, ReadsFiles, Task, words_for};

/// The words that are written down for a task ask for it.
pub fn words_ask_for_their_task()
    ensures { (name : List ℕ) (task : Task) → HasPlainPaths task → AskFor (words_for name task) task }
{}

/// With `--explain` after them they ask for the same task, if it reads files, and that a refusal is explained.
pub fn a_refusal_may_be_explained()
    ensures { (name : List ℕ) (task : Task) → HasPlainPaths task → ReadsFiles task →
        AskFor (words_for name task ++ codes "--explain" ∷ []) task × AskForReasons (words_for name task ++ codes "--explain" ∷ []) }
{}
