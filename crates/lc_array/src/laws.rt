//! What holds of the axioms. Each function is a law: it does nothing, and its contract is the law.
ghost use Rattle.std.specs.Prelude.{ℤ};
ghost use Rattle.lc_array.specs.Axioms.{written, same_index, affine_cell};
ghost use Rattle.lc_term.specs.Meaning.{State, Env, Holds};
ghost use Rattle.lc_term.specs.Syntax.{Term, Column};

/// Each axiom is true in every state, whatever its parts are.
pub fn axioms_are_true()
    ensures written { (s : State) (e b : Env) (c : Column) (i v j : Term) → Holds s e b (written c i v j) }
    ensures same_index { (s : State) (e b : Env) (c : Column) (i j : Term) → Holds s e b (same_index c i j) }
    ensures affine_cell { (s : State) (e b : Env) (m n : ℤ) (i : Term) → Holds s e b (affine_cell m n i) }
{}
