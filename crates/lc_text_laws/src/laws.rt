//! What holds of the texts of developments. Each function is a law: it does nothing, and its contract is the law.
ghost use Rattle.std.specs.Prelude.{◌≡◌, ◌≤◌, ◌^◌, ℕ, ℤ, false, true, List, [], ◌++◌, Option, map, ◌<◌, length};
ghost use Rattle.std.specs.Fmt.{signed_decimal};
ghost use Rattle.lc_reading.specs.Readings.{fine, behind_reading};
ghost use Rattle.lc_reading.specs.Files.{Says, IsFirstRefusal};
ghost use Rattle.lc_reading.specs.Rows.{each_reading};
ghost use Rattle.lc_reading.specs.Words.{is};
ghost use Rattle.lc_sexp.specs.Trees.{Tree, Trees, atom, list, none, ◌▸◌, row, item_count};
ghost use Rattle.lc_term.specs.Syntax.{Formula, Term};
ghost use Rattle.lc_text.specs.Formulas.{formula_reading};
ghost use Rattle.lc_text.specs.Names.{Names};
ghost use Rattle.lc_text.specs.SpelledTree.{formula_tree, term_tree};
ghost use Rattle.lc_text.specs.Spelling.{Spelled};
ghost use Rattle.lc_text.specs.Terms.{number_reading, term_reading};
ghost use Rattle.lc_text.specs.declared.scope.Extra.TheVariants.{Quantifiers};
ghost use Rattle.lc_action.specs.Action.{Action};
ghost use Rattle.lc_tie.specs.Tie.{Conjunct};
ghost use Rattle.lc_outline.specs.Development.{On, Development};
ghost use Rattle.lc_outline_print.specs.Developments.{development_printed};
ghost use Rattle.lc_term.specs.Updates.{Update};
ghost use Rattle.lc_rider_text.specs.Actions.{action_reading, effect_reading};
ghost use Rattle.lc_term.specs.SystemColumns.{system_columns};
ghost use Rattle.lc_text_laws.specs.ReadsBack.{HaveNoBinder, IsPrintable};
ghost use Rattle.lc_outline_text.specs.Developments.{file_reading};
ghost use Rattle.lc_rider_text.specs.Conjuncts.{conjunct_reading};
ghost use Rattle.lc_outline_print.specs.Parts.{update_trees};
ghost use Rattle.lc_rider_text.specs.Known.{Known, Ways};
ghost use Rattle.lc_rider_text.specs.Ons.{ons_reading};
ghost use Rattle.lc_rider_text.specs.declared.edges.Edges.{Edges};
ghost use Rattle.lc_outline_print.specs.Beside.{action_tree, on_tree};
ghost use Rattle.lc_text_laws.specs.KnownSpelled.{AreKnown};
ghost use Rattle.lc_seq.specs.Specification.{Column, Specification};
ghost use Rattle.lc_spec_text.specs.Specifications.{specification_reading};
ghost use Rattle.lc_object.specs.Syntax.{Instr, Object};
ghost use Rattle.lc_object_text.specs.CodeNames.{CodeNames};
ghost use Rattle.lc_object_text.specs.Instructions.{instruction_reading};
ghost use Rattle.lc_outline_print.specs.Instructions.{instruction_tree};
ghost use Rattle.lc_outline_print.specs.Specifications.{specification_tree};
ghost use Rattle.lc_text_laws.specs.CodeSpelled.{AreCodeNames};
ghost use Rattle.lc_text_laws.specs.Spellings.{IsSpelledSo, AreUnbound};
ghost use Rattle.lc_base.specs.Limits.{condition_limit};
ghost use Rattle.lc_cond.specs.Conditions.{conditions};
ghost use Rattle.lc_text_laws.specs.Counted.{counted, HasForms, too_many};
ghost use Rattle.lc_sexp.specs.Reads.{ReadsAs};

/// A number is printed as it stood.
pub fn numbers_are_printed_as_they_stood()
    ensures { (n : ℕ) (t : Tree) (z : ℤ) → number_reading n t ≡ fine z → atom (signed_decimal z) ≡ t }
{}

/// Terms, and formulas without quantifiers, are printed as they stood; what is printed of a formula has as many items.
pub fn formulas_are_printed_as_they_stood()
    ensures term { (names : Names) (by : Spelled) (n : ℕ) (t : Tree) (x : Term) → IsSpelledSo names by → term_reading names [] n t ≡ fine x → term_tree by 0 x ≡ t }
    ensures formula { (names : Names) (by : Spelled) (n : ℕ) (t : Tree) (f : Formula) → IsSpelledSo names by → names.allows Quantifiers ≡ false →
        formula_reading names [] n t ≡ fine f → formula_tree by 0 f ≡ t }
    ensures items { (names : Names) (by : Spelled) (n : ℕ) (t : Tree) (f : Formula) → IsSpelledSo names by → formula_reading names [] n t ≡ fine f →
        item_count (formula_tree by 0 f) ≡ item_count t }
{}

/// What is printed of a formula that is read reads as the same formula, if no variable is named as one of a quantifier is printed.
pub fn printed_formulas_read_back()
    ensures { (names : Names) (by : Spelled) (n : ℕ) (t : Tree) (f : Formula) → IsSpelledSo names by → AreUnbound names → item_count t ≤ 2 ^ 32 →
        formula_reading names [] n t ≡ fine f → formula_reading names [] n (formula_tree by 0 f) ≡ fine f }
{}

/// A specification is printed as it stood, if the names of its columns are the first of those that columns are printed by.
pub fn specifications_are_printed_as_they_stood()
    ensures { (others names rest : List (List ℕ)) (n : ℕ) (t : Tree) (s : Specification) → specification_reading others n t ≡ fine s →
        names ≡ map (λ (c : Column). c.name) s.columns ++ rest → specification_tree names s ≡ t }
{}

/// An instruction is printed as it stood, if its names are printed as they are read.
pub fn instructions_are_printed_as_they_stood()
    ensures { (names : Names) (code : CodeNames) (by : Spelled) (object : Object) (n : ℕ) (t : Tree) (i : Instr) → AreCodeNames names code by object →
        instruction_reading names code n t ≡ fine i → instruction_tree object by i ≡ t }
{}

/// What is done at the edges of a point is printed as it stood, if its names are printed as they are read.
pub fn edges_are_printed_as_they_stood()
    ensures { (known : Known) (names : Names) (by : Spelled) (object : Object) (actions : List Action) (own : Option Ways) (edges : Edges) (m : ℕ) (ts : Trees) (xs : List On) →
        AreKnown known names by object actions → ons_reading known names own edges m ts ≡ fine xs → row (map (on_tree object actions by) xs) ≡ ts }
{}

/// What is printed of a conjunct that is read reads as the same conjunct, if no variable is named as one of a quantifier is printed.
pub fn printed_conjuncts_read_back()
    ensures { (names : Names) (by : Spelled) (n : ℕ) (t : Tree) (c : Conjunct) → IsSpelledSo names by → AreUnbound names → item_count t ≤ 2 ^ 32 →
        conjunct_reading names n t ≡ fine c → conjunct_reading names n (list (atom c.name ▸ formula_tree by 0 c.formula ▸ none)) ≡ fine c }
{}

/// A list of formulas after a word is printed so that it reads as the same formulas.
pub fn printed_lists_of_formulas_read_back()
    ensures { (names : Names) (by : Spelled) (word : List ℕ) (n : ℕ) (t : Tree) (fs : List Formula) → IsSpelledSo names by → AreUnbound names → item_count t ≤ 2 ^ 32 → is word word ≡ true →
        behind_reading word (λ n. each_reading (formula_reading names [])) n t ≡ fine fs →
        behind_reading word (λ n. each_reading (formula_reading names [])) n (list (atom word ▸ row (map (formula_tree by 0) fs))) ≡ fine fs }
{}

/// The guard of an action is printed so that it reads as the same, and its updates as they stood.
pub fn printed_effects_read_back()
    ensures { (known : Known) (names : Names) (by : Spelled) (object : Object) (actions : List Action) (m n : ℕ) (f : Tree) (us : Trees) (p : Formula × List Update) →
        AreKnown known names by object actions → AreUnbound names → item_count f ≤ 2 ^ 32 → effect_reading known names m f n us ≡ fine p →
        (update_trees by p.1 ≡ us) × (effect_reading known names m (formula_tree by 0 p.0) n us ≡ fine p) }
{}

/// What is printed of an action that is read reads as the same action, if no parameter is named as a variable of a quantifier is printed.
pub fn printed_actions_read_back()
    ensures { (known : Known) (columns : List (List ℕ)) (i n : ℕ) (t : Tree) (a : Action) → columns ≡ known.columns ++ system_columns → item_count t ≤ 2 ^ 32 → HaveNoBinder a.parameters →
        action_reading known i n t ≡ fine a → action_reading known i n (action_tree columns a) ≡ fine a }
{}

/// A development that a file says is said by the text that is printed of it, if no argument, local or parameter is named as a
/// variable of a quantifier is printed, and the text is within the limit of size.
pub fn printed_developments_read_back()
    ensures { (bytes : List ℕ) (D : Development) → Says file_reading bytes D → IsPrintable D → Says file_reading (development_printed D) D }
{}

/// The conditions of a development that a file says are as many as are counted from the text of the file.
pub fn conditions_are_counted_from_the_text()
    ensures { (bytes : List ℕ) (ts : Trees) (D : Development) → ReadsAs bytes ts → Says file_reading bytes D → length (conditions D) ≡ counted ts }
{}

/// A file says a development exactly if its forms are those of this development and it has no more conditions than the limit.
/// If there are more, the file is refused, and this is reported at item 0.
pub fn developments_are_within_the_limit()
    ensures formed { (bytes : List ℕ) (D : Development) → Says file_reading bytes D → HasForms bytes D }
    ensures few { (bytes : List ℕ) (D : Development) → Says file_reading bytes D → length (conditions D) ≤ condition_limit }
    ensures said { (bytes : List ℕ) (D : Development) → HasForms bytes D → length (conditions D) ≤ condition_limit → Says file_reading bytes D }
    ensures refused { (bytes : List ℕ) (D : Development) → HasForms bytes D → condition_limit < length (conditions D) → IsFirstRefusal file_reading bytes too_many }
{}
