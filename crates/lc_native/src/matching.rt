//! Whether a specification is that of a form, but for names.
ghost use Rattle.std.specs.Prelude.{◌≡◌, ◌↔◌, IsTrue, map};

use crate::form::OperationForm;
use lc_base::Name;
use lc_seq::{Branch, Column, Label, Operation, Update};
use lc_term::{Formula, Term};

/// A part of a specification, which is compared with a part of a form: whether both say the same but for names that say nothing.
pub(crate) trait Matches<F> {
    ghost use Rattle.std.specs.Prelude.{◌≡◌, ◌↔◌, IsTrue};

    /// What is compared.
    ghost Said: { Type 0 };

    /// What the part says.
    ghost said: { Self → Said };

    /// What the form says.
    ghost wanted: { F → Said };

    fn matches(&self, form: &F) -> bool
        ensures { IsTrue result ↔ (said self.now ≡ wanted form.now) };
}

// Whether there are as many parts as forms, and each matches the form at its place.
pub(crate) fn all_match<T: Matches<F>, F>(parts: &[T], forms: &[F]) -> bool
    ensures { IsTrue result ↔ (map T.said parts.now ≡ map T.wanted forms.now) }
{
    if parts.len() != forms.len() {
        return false;
    }
    for i in 0..parts.len() {
        if !parts[i].matches(&forms[i]) {
            return false;
        }
    }
    true
}

impl Matches<Term> for Term {
    ghost use Rattle.lc_term.specs.Syntax.{Term};
    ghost use Rattle.lc_term.specs.View.{term_of};

    ghost Said = { Term };

    ghost said = { term_of };

    ghost wanted = { term_of };

    fn matches(&self, form: &Term) -> bool {
        self == form
    }
}

impl Matches<Formula> for Formula {
    ghost use Rattle.lc_term.specs.Syntax.{Formula};
    ghost use Rattle.lc_term.specs.View.{formula_of};

    ghost Said = { Formula };

    ghost said = { formula_of };

    ghost wanted = { formula_of };

    fn matches(&self, form: &Formula) -> bool {
        self == form
    }
}

impl Matches<Name> for Name {
    ghost use Rattle.std.specs.Prelude.{ℕ, List};
    ghost use Rattle.lc_base.specs.Name.{bytes_of};

    ghost Said = { List ℕ };

    ghost said = { bytes_of };

    ghost wanted = { bytes_of };

    fn matches(&self, form: &Name) -> bool {
        self == form
    }
}

impl Matches<Update> for Update {
    ghost use Rattle.lc_term.specs.Updates.{Update};
    ghost use Rattle.lc_term.specs.UpdateView.{update_of};

    ghost Said = { Update };

    ghost said = { update_of };

    ghost wanted = { update_of };

    fn matches(&self, form: &Update) -> bool {
        if self.column != form.column {
            return false;
        }
        self.index.matches(&form.index) && self.value.matches(&form.value)
    }
}

impl Matches<Label> for Label {
    ghost use Rattle.std.specs.Prelude.{ℕ, List};
    ghost use Rattle.lc_seq.specs.Sequential.{Chosen};
    ghost use Rattle.lc_seq.specs.SpecView.{label_of};

    ghost Said = { Chosen (List ℕ) };

    ghost said = { label_of };

    ghost wanted = { label_of };

    fn matches(&self, form: &Label) -> bool {
        match (self, form) {
            (Label::First, Label::First) => true,
            (
                Label::Named { name, parameters },
                Label::Named {
                    name: wanted,
                    parameters: forms,
                },
            ) => name == wanted && all_match(parameters, forms),
            _ => false,
        }
    }
}

impl Matches<Branch> for Branch {
    ghost use Rattle.lc_seq.specs.Specification.{Branch};
    ghost use Rattle.lc_seq.specs.SpecView.{branch_of};

    ghost Said = { Branch };

    ghost said = { branch_of };

    ghost wanted = { branch_of };

    fn matches(&self, form: &Branch) -> bool {
        if !self.label.matches(&form.label) || !self.guard.matches(&form.guard) {
            return false;
        }
        all_match(&self.updates, &form.updates) && all_match(&self.replies, &form.replies)
    }
}

/// The numbers of a column.
impl Matches<(i64, i64)> for Column {
    ghost use Rattle.std.specs.Prelude.{ℤ};
    ghost use Rattle.lc_seq.specs.SpecView.{column_of};
    ghost use Rattle.lc_native.specs.Form.{numbers_of};

    ghost Said = { ℤ × ℤ };

    ghost said = { λ column. numbers_of (column_of column) };

    ghost wanted = { λ numbers. numbers };

    fn matches(&self, form: &(i64, i64)) -> bool {
        self.slope == form.0 && self.start == form.1
    }
}

impl Matches<OperationForm> for Operation {
    ghost use Rattle.lc_seq.specs.SpecView.{operation_of};
    ghost use Rattle.lc_native.specs.Form.{OperationForm, operation_form};
    ghost use Rattle.lc_native.specs.FormView.{operation_form_of};

    ghost Said = { OperationForm };

    ghost said = { λ operation. operation_form (operation_of operation) };

    ghost wanted = { operation_form_of };

    fn matches(&self, form: &OperationForm) -> bool {
        self.arguments.len() == form.arguments && all_match(&self.branches, &form.branches)
    }
}
