//! What holds of forms. Each function is a law: it does nothing, and its contract is the law.
ghost use Rattle.std.specs.Prelude.{◌≡◌, ℤ, List};
ghost use Rattle.std.specs.List.{AllByRecursion, IsDistinct};
ghost use Rattle.std.specs.Map.{keys_of};
ghost use Rattle.lc_term.specs.Meaning.{State, Env, value, Holds};
ghost use Rattle.lc_term.specs.Syntax.{Term, Le, Subtract};
ghost use Rattle.lc_term.specs.Equal.{term_eq};
ghost use Rattle.lc_linear.specs.Closing.{Entry, Closes};
ghost use Rattle.lc_linear.specs.Divided.{Divides, IsDivided};
ghost use Rattle.lc_linear.specs.Form.{Place, Form, form_of};
ghost use Rattle.lc_linear.specs.Listed.{listed, listed_value};

/// A form has the meaning of its term: in every state and for all numbers of the variables, the term's value is the
/// constant plus each coefficient times the value of its atom. Any list of the coefficients will do, in any order,
/// that has no atom twice.
pub fn form_has_the_meaning_of_its_term()
    ensures { (s : State) (e b : Env) (t : Term) (n : ℤ) (es : List (Term × ℤ)) →
        IsDistinct term_eq (keys_of es) → ((p : Place) → form_of t p ≡ listed n es p) → value s e b t ≡ listed_value (value s e b) n es }
{}

/// Terms with the same form have the same value.
pub fn form_decides_the_value()
    ensures { (s : State) (e b : Env) (t u : Term) → ((p : Place) → form_of t p ≡ form_of u p) → value s e b t ≡ value s e b u }
{}

/// Comparisons that close contradict each other: in no state, and for no numbers of the variables, do all of them hold.
pub fn what_closes_cannot_hold()
    ensures { (s : State) (e b : Env) (es : List Entry) → Closes es → AllByRecursion (λ x. Holds s e b x.0) es → ⊥ }
{}

/// An inequality implies each inequality whose form is its own divided by a number and rounded up.
pub fn division_keeps_inequalities()
    ensures { (s : State) (e b : Env) (t u v w : Term) (k : ℤ) →
        IsDivided (form_of (Subtract t u)) k (form_of (Subtract v w)) → Holds s e b (Le t u) → Holds s e b (Le v w) }
{}

/// A form has at most one quotient by a number, and none by one that does not divide it.
pub fn quotient_is_the_only_one()
    ensures divides { (f g : Form) (k : ℤ) → IsDivided f k g → Divides k f }
    ensures same { (f g h : Form) (k : ℤ) → IsDivided f k g → IsDivided f k h → (p : Place) → g p ≡ h p }
{}
