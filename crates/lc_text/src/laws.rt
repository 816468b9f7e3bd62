//! What holds of the definitions. Each function is a law: it does nothing, and its contract is the law.
ghost use Rattle.std.specs.Prelude.{◌≡◌, ◌<◌, ◌≤◌, ◌^◌, ℕ, List, ◌++◌, codes, IsTrue};
ghost use Rattle.std.specs.Fmt.{decimal};
ghost use Rattle.lc_reading.specs.Readings.{fine};
ghost use Rattle.lc_sexp.specs.Printed.{printed_tree};
ghost use Rattle.lc_text.specs.Names.{Names};
ghost use Rattle.lc_term.specs.Syntax.{Term, Variable, Column, Formula};
ghost use Rattle.lc_text.specs.declared.scope.Extra.TheVariants.{NumberedVariables};
ghost use Rattle.lc_text.specs.Formulas.{formula_reading};
ghost use Rattle.lc_text.specs.Spelled.{spelled_term, spelled_column, spelled_formula};
ghost use Rattle.lc_text.specs.SpelledTree.{term_tree, column_tree, formula_tree, binders, TermReadsBack, ColumnReadsBack, FormulaReadsBack};
ghost use Rattle.lc_text.specs.Spelling.{Spelled};
ghost use Rattle.lc_text.specs.Terms.{atom_reading, term_reading, column_reading};

/// What is printed of a term, a column expression or a formula is the text of an s-expression, which reads as the same
/// term, column expression or formula if it is one that reads back, whatever its item's number. Around it are `depth`
/// quantifiers, with the names that are printed for them.
pub fn printed_terms_read_back()
    ensures term_text { (by : Spelled) (depth : ℕ) (t : Term) → printed_tree (term_tree by depth t) ≡ spelled_term by depth t }
    ensures column_text { (by : Spelled) (depth : ℕ) (c : Column) → printed_tree (column_tree by depth c) ≡ spelled_column by depth c }
    ensures formula_text { (by : Spelled) (depth : ℕ) (f : Formula) → printed_tree (formula_tree by depth f) ≡ spelled_formula by depth f }
    ensures term { (names : Names) (by : Spelled) (depth n : ℕ) (t : Term) → depth ≤ 2 ^ 32 →
        TermReadsBack names by depth t → term_reading names (binders depth) n (term_tree by depth t) ≡ fine t }
    ensures column { (names : Names) (by : Spelled) (depth reader n : ℕ) (c : Column) → depth ≤ 2 ^ 32 →
        ColumnReadsBack names by depth c → column_reading names (binders depth) reader n (column_tree by depth c) ≡ fine c }
    ensures formula { (names : Names) (by : Spelled) (depth n : ℕ) (f : Formula) → depth ≤ 2 ^ 32 →
        FormulaReadsBack names by depth f → formula_reading names (binders depth) n (formula_tree by depth f) ≡ fine f }
{}

/// A variable `?k` reads as the variable k where such variables are allowed, whatever names quantifiers bind.
pub fn numbered_variables_read_back()
    ensures { (names : Names) (bound : List (List ℕ)) (n k : ℕ) → IsTrue (names.allows NumberedVariables) → k < 2 ^ 32 →
        atom_reading names bound n (codes "?" ++ decimal k) ≡ fine (Variable k) }
{}
