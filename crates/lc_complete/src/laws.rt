//! A law of what is made. It is the contract of a function without effect.
ghost use Rattle.std.specs.Prelude.{◌≤◌, ℕ, List, length};
ghost use Rattle.lc_base.specs.Limits.{file_limit};
ghost use Rattle.lc_complete.specs.Making.{IsMade};
ghost use Rattle.lc_outline.specs.Development.{Development};
ghost use Rattle.lc_outline_text.specs.Developments.{file_reading};
ghost use Rattle.lc_reading.specs.Files.{Says};

use lc_layout::laid_out_reads_back;

/// What is made of a file says the development that completes it, comments and all, if it is within the file limit.
pub fn what_is_made_is_read_back()
    ensures { (file text : List ℕ) (D : Development) → IsMade file text D → length text ≤ file_limit → Says file_reading text D }
{
    laid_out_reads_back();
}
