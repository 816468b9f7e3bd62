//! Laws of what is laid out. Each is the contract of a function without effect.
ghost use Rattle.std.specs.Prelude.{◌≡◌, ◌≤◌, ℕ, List, length};
ghost use Rattle.lc_base.specs.Limits.{depth_limit, file_limit};
ghost use Rattle.lc_sexp.specs.Trees.{Trees, depth_of_all};
ghost use Rattle.lc_sexp.specs.Reads.{ReadsAs};
ghost use Rattle.lc_sexp.specs.Printed.{HaveAtoms};
ghost use Rattle.lc_layout.specs.Layout.{laid_out};

/// What is laid out of trees reads as these trees, if their atoms are made of letters, they are nested within the limit, and
/// the text is within the file limit.
pub fn laid_out_reads_back()
    ensures { (ts : Trees) → HaveAtoms ts → depth_of_all ts ≤ depth_limit → length (laid_out ts) ≤ file_limit → ReadsAs (laid_out ts) ts }
{}

/// What a file reads as, laid out, is a text that is the same when it is read and laid out again.
pub fn laying_out_again_changes_nothing()
    ensures { (bytes : List ℕ) (ts us : Trees) → ReadsAs bytes ts → length (laid_out ts) ≤ file_limit → ReadsAs (laid_out ts) us → laid_out us ≡ laid_out ts }
{}
