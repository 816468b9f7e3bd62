//! What holds of the definitions. Each function is a law: it does nothing, and its contract is the law.
ghost use Rattle.std.specs.Prelude.{◌≡◌, ◌≤◌, ◌^◌, ◌↔◌, ℕ, ℤ, List, [], length, IsTrue};
ghost use Rattle.std.specs.Option.{IsSome};
ghost use Rattle.lc_term.specs.Equal.{term_eq, column_eq, formula_eq};
ghost use Rattle.lc_term.specs.Meaning.{State, Env, push, value, column, Holds};
ghost use Rattle.lc_term.specs.Places.{Test, passes, term_passes, is_closed, shift_fits, put_fits, open_fits};
ghost use Rattle.lc_term.specs.Replacement.{Replacement, replace_term, replace, replacing, columns_by, variables_by, bounds_by};
ghost use Rattle.lc_term.specs.Substitution.{substituted, with_value, instantiated, shifted_term, shifted, push_all};
ghost use Rattle.lc_term.specs.Syntax.{Term, Column, Formula};
ghost use Rattle.lc_term.specs.Truth.{is_ground, truth};

/// The test of two terms, of two columns and of two formulas is true exactly if they are the same tree.
pub fn equality_is_exact()
    ensures terms { (t u : Term) → IsTrue (term_eq t u) ↔ (t ≡ u) }
    ensures columns { (c d : Column) → IsTrue (column_eq c d) ↔ (c ≡ d) }
    ensures formulas { (f g : Formula) → IsTrue (formula_eq f g) ↔ (f ≡ g) }
{}

/// What does not fail to hold holds.
pub fn meaning_is_stable()
    ensures { (s : State) (e b : Env) (f : Formula) → ((Holds s e b f → ⊥) → ⊥) → Holds s e b f }
{}

/// A formula without quantifiers holds exactly if its test is true.
pub fn ground_formulas_are_decided()
    ensures { (s : State) (e b : Env) (f : Formula) → IsTrue (is_ground f) → IsTrue (truth s e b f) ↔ Holds s e b f }
{}

/// After a replacement a term and a formula mean what they mean in the state and for the variables that the
/// replacement stands for.
pub fn replacement_keeps_meaning()
    ensures terms { (s : State) (e b : Env) (r : Replacement) (t : Term) →
        value s e b (replace_term r t) ≡ value (columns_by s e b r) (variables_by s e b r) (bounds_by s e b r) t }
    ensures formulas { (s : State) (e b : Env) (r : Replacement) (f : Formula) →
        Holds s e b (replace r f) ↔ Holds (columns_by s e b r) (variables_by s e b r) (bounds_by s e b r) f }
{}

/// After columns are replaced by column expressions and free variables by terms, a formula says what it says in
/// the state of those cells and for the numbers of those terms.
pub fn simultaneous_replacement_keeps_meaning()
    ensures { (s : State) (e b : Env) (columns : ℕ → Column) (variables : ℕ → Term) (f : Formula) →
        Holds s e b (replace (replacing columns variables) f) ↔ Holds (λ c. column s e b (columns c)) (λ k. value s e b (variables k)) b f }
{}

/// After a substitution a formula says what it says when the variable has the term's number.
pub fn substitution_keeps_meaning()
    ensures { (s : State) (e b : Env) (v : ℕ) (u : Term) (f : Formula) →
        Holds s e b (substituted v u f) ↔ Holds s (with_value v (value s e b u) e) b f }
{}

/// After an instantiation the body of a quantifier says what it says when the quantifier's variable has the
/// term's number.
pub fn instantiation_keeps_meaning()
    ensures { (s : State) (e b : Env) (u : Term) (f : Formula) →
        Holds s e b (instantiated u f) ↔ Holds s e (push (value s e b u) b) f }
{}

/// What is shifted means below the added quantifiers, whose variables are `added`, what it meant without them.
/// The quantifiers of `inner` are inside the added ones.
pub fn shift_keeps_meaning()
    ensures terms { (s : State) (e b : Env) (added inner : List ℤ) (t : Term) →
        value s e (push_all inner (push_all added b)) (shifted_term (length added) (length inner) t) ≡ value s e (push_all inner b) t }
    ensures formulas { (s : State) (e b : Env) (added inner : List ℤ) (f : Formula) →
        Holds s e (push_all inner (push_all added b)) (shifted (length added) (length inner) f) ↔ Holds s e (push_all inner b) f }
{}

/// What a formula says depends only on the columns and free variables that occur in it.
pub fn meaning_depends_on_what_stands_there()
    ensures { (p : Test) (s s' : State) (e e' b : Env) (f : Formula) →
        ((c : ℕ) → IsTrue (p.columns c) → s c ≡ s' c) → ((k : ℕ) → IsTrue (p.variables k) → e k ≡ e' k) →
        IsTrue (passes (λ n. p) 0 f) → Holds s e b f ↔ Holds s' e' b f }
{}

/// A term without bound variables stays the same when it is shifted, and may be shifted and put in anywhere.
pub fn closed_terms_move_freely()
    ensures same { (added cutoff : ℕ) (t : Term) → IsTrue (is_closed t) → shifted_term added cutoff t ≡ t }
    ensures shift { (added cutoff n : ℕ) (t : Term) → IsTrue (is_closed t) → IsTrue (term_passes (shift_fits added cutoff n) t) }
    ensures substitute { (v : ℕ) (u : Term) → IsTrue (is_closed u) → (f : Formula) → IsTrue (passes (put_fits v u) 0 f) }
    ensures instantiate { (u : Term) → IsTrue (is_closed u) → (f : Formula) → IsTrue (passes (open_fits u) 0 f) }
{}
