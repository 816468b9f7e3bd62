//! How the parts are printed that several forms have.
ghost use Rattle.std.specs.Prelude.{◌≡◌, ◌∷◌, ◌++◌, OnOk, codes, string_bytes, map};
ghost use Rattle.lc_base.specs.Name.{bytes_of};
ghost use Rattle.lc_sexp.specs.Printed.{printed_tree, printed_items, printed_others};
ghost use Rattle.lc_sexp.specs.Trees.{list};
ghost use Rattle.lc_term.specs.View.{term_of, formula_of};
ghost use Rattle.lc_term.specs.UpdateView.{update_of};
ghost use Rattle.lc_text.specs.SpelledTree.{term_tree, formula_tree};
ghost use Rattle.lc_outline_print.specs.Parts.{name_trees, term_trees, formula_trees, column_tree, update_parts, update_tree, update_trees};

use lc_base::{Name, OutOfMemory};
use lc_term::{Formula, Term, Update};
use lc_text::{Spelling, write_formula, write_term};

/// Writes a term.
#[tactic(auto, using(lc_text::proofs::PrintedTrees::term_text))]
fn write_plain_term<S: Spelling>(
    out: &mut String,
    spelling: &S,
    term: &Term,
) -> Result<(), OutOfMemory>
    ensures { OnOk result (string_bytes out.new ≡ string_bytes out.old ++ printed_tree (term_tree (S.spelled spelling.now) 0 (term_of term.now))) }
{
    write_term(out, spelling, 0, term)
}

/// Writes a term after a space.
pub(crate) fn write_term_part<S: Spelling>(
    out: &mut String,
    spelling: &S,
    term: &Term,
) -> Result<(), OutOfMemory>
    ensures { OnOk result (string_bytes out.new ≡ string_bytes out.old ++ codes " " ++ printed_tree (term_tree (S.spelled spelling.now) 0 (term_of term.now))) }
{
    out.push_str(" ")?;
    write_plain_term(out, spelling, term)
}

/// Writes a formula after a space.
#[tactic(auto, using(lc_text::proofs::PrintedTrees::formula_text))]
pub(crate) fn write_formula_part<S: Spelling>(
    out: &mut String,
    spelling: &S,
    formula: &Formula,
) -> Result<(), OutOfMemory>
    ensures { OnOk result (string_bytes out.new ≡ string_bytes out.old ++ codes " " ++ printed_tree (formula_tree (S.spelled spelling.now) 0 (formula_of formula.now))) }
{
    out.push_str(" ")?;
    write_formula(out, spelling, 0, formula)
}

/// Writes names, each after a space.
pub(crate) fn write_names(out: &mut String, names: &[Name]) -> Result<(), OutOfMemory>
    ensures { OnOk result (string_bytes out.new ≡ string_bytes out.old ++ printed_others (name_trees (map bytes_of names.now))) }
{
    for name in names {
        out.push_str(" ")?;
        out.push_str(name.as_str())?;
    }
    Ok(())
}

/// Writes a list of names after a space.
pub(crate) fn write_name_list(out: &mut String, names: &[Name]) -> Result<(), OutOfMemory>
    ensures { OnOk result (string_bytes out.new ≡ string_bytes out.old ++ codes " " ++ printed_tree (list (name_trees (map bytes_of names.now)))) }
{
    out.push_str(" (")?;
    if let Some((first, others)) = names.split_first() {
        out.push_str(first.as_str())?;
        write_names(out, others)?;
    }
    out.push_str(")")?;
    Ok(())
}

/// Writes terms, each after a space.
pub(crate) fn write_terms<S: Spelling>(
    out: &mut String,
    spelling: &S,
    terms: &[Term],
) -> Result<(), OutOfMemory>
    ensures { OnOk result (string_bytes out.new ≡ string_bytes out.old ++ printed_others (term_trees (S.spelled spelling.now) (map term_of terms.now))) }
{
    for term in terms {
        write_term_part(out, spelling, term)?;
    }
    Ok(())
}

/// Writes a list of terms after a space.
pub(crate) fn write_term_list<S: Spelling>(
    out: &mut String,
    spelling: &S,
    terms: &[Term],
) -> Result<(), OutOfMemory>
    ensures { OnOk result (string_bytes out.new ≡ string_bytes out.old ++ codes " " ++ printed_tree (list (term_trees (S.spelled spelling.now) (map term_of terms.now)))) }
{
    out.push_str(" (")?;
    if let Some((first, others)) = terms.split_first() {
        write_plain_term(out, spelling, first)?;
        write_terms(out, spelling, others)?;
    }
    out.push_str(")")?;
    Ok(())
}

/// Writes formulas, each after a space.
pub(crate) fn write_formulas<S: Spelling>(
    out: &mut String,
    spelling: &S,
    formulas: &[Formula],
) -> Result<(), OutOfMemory>
    ensures { OnOk result (string_bytes out.new ≡ string_bytes out.old ++ printed_others (formula_trees (S.spelled spelling.now) (map formula_of formulas.now))) }
{
    for formula in formulas {
        write_formula_part(out, spelling, formula)?;
    }
    Ok(())
}

/// Writes a column, an index and a value.
pub(crate) fn write_update_parts<S: Spelling>(
    out: &mut String,
    spelling: &S,
    update: &Update,
) -> Result<(), OutOfMemory>
    ensures { OnOk result (string_bytes out.new ≡ string_bytes out.old ++ printed_items (update_parts (S.spelled spelling.now) (update_of update.now))) }
{
    spelling.column(out, update.column)?;
    write_term_part(out, spelling, &update.index)?;
    write_term_part(out, spelling, &update.value)
}

/// Writes `(COLUMN T T)`.
pub(crate) fn write_update<S: Spelling>(
    out: &mut String,
    spelling: &S,
    update: &Update,
) -> Result<(), OutOfMemory>
    ensures { OnOk result (string_bytes out.new ≡ string_bytes out.old ++ printed_tree (update_tree (S.spelled spelling.now) (update_of update.now))) }
{
    out.push_str("(")?;
    write_update_parts(out, spelling, update)?;
    out.push_str(")")?;
    Ok(())
}

/// Writes updates, each after a space.
pub(crate) fn write_updates<S: Spelling>(
    out: &mut String,
    spelling: &S,
    updates: &[Update],
) -> Result<(), OutOfMemory>
    ensures { OnOk result (string_bytes out.new ≡ string_bytes out.old ++ printed_others (update_trees (S.spelled spelling.now) (map update_of updates.now))) }
{
    for update in updates {
        out.push_str(" ")?;
        write_update(out, spelling, update)?;
    }
    Ok(())
}

/// Writes a list of updates after a space.
pub(crate) fn write_update_list<S: Spelling>(
    out: &mut String,
    spelling: &S,
    updates: &[Update],
) -> Result<(), OutOfMemory>
    ensures { OnOk result (string_bytes out.new ≡ string_bytes out.old ++ codes " " ++ printed_tree (list (update_trees (S.spelled spelling.now) (map update_of updates.now)))) }
{
    out.push_str(" (")?;
    if let Some((first, others)) = updates.split_first() {
        write_update(out, spelling, first)?;
        write_updates(out, spelling, others)?;
    }
    out.push_str(")")?;
    Ok(())
}

/// Writes `(NAME a b)` after a space.
pub(crate) fn write_column(
    out: &mut String,
    name: &Name,
    slope: i64,
    start: i64,
) -> Result<(), OutOfMemory>
    ensures { OnOk result (string_bytes out.new ≡ string_bytes out.old ++ codes " " ++ printed_tree (column_tree (bytes_of name.now) slope start)) }
{
    out.push_str(" (")?;
    out.push_str(name.as_str())?;
    write!(out, " {slope} {start})")?;
    Ok(())
}
