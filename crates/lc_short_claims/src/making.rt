//! What lc_complete promises, once more.
ghost use Rattle.std.specs.Prelude.{◌≤◌, ℕ, List, length};
ghost use Rattle.lc_base.specs.Limits.{file_limit};
ghost use Rattle.lc_complete.specs.Making.{IsAnswer, IsMade};
ghost use Rattle.lc_outline.specs.Development.{Development};
ghost use Rattle.lc_outline_text.specs.Developments.{file_reading};
ghost use Rattle.lc_reading.specs.Files.{Says};
ghost use Rattle.lc_sexp.specs.Reads.{ReadsAs};

use lc_base::Fault;
use lc_complete::{Made, Silent, complete, what_is_made_is_read_back};
use lc_sexp::Forms;
use std::alloc::Global;

/// A short development is made whole.
pub fn making_a_development_whole(alloc: Global, forms: &Forms, budget: u64) -> Result<Made, Fault>
    ensures { (bytes : List ℕ) → ReadsAs bytes forms.now → IsAnswer bytes result }
{
    let mut silent = Silent;
    complete(alloc, forms, budget, &mut silent)
}

/// What is made says the development that completes the file, comments and all.
pub fn reading_back_what_is_made()
    ensures { (file text : List ℕ) (D : Development) → IsMade file text D → length text ≤ file_limit → Says file_reading text D }
{
    what_is_made_is_read_back();
}
