//! Specifications.
use crate::sameness::{Same, are_same};
use lc_seq::{Branch, Column, Label, Operation, TextSpec};

impl Same for Column {
    ghost use Rattle.lc_seq.specs.Specification as S;
    ghost use Rattle.lc_seq.specs.SpecView.{column_of};

    ghost Shown = { S.Column };

    ghost shown = { column_of };

    fn is_same(&self, other: &Column) -> bool {
        self.name.is_same(&other.name) && self.slope == other.slope && self.start == other.start
    }
}

impl Same for Label {
    ghost use Rattle.std.specs.Prelude.{ℕ, List};
    ghost use Rattle.lc_seq.specs.Sequential.{Chosen};
    ghost use Rattle.lc_seq.specs.SpecView.{label_of};

    ghost Shown = { Chosen (List ℕ) };

    ghost shown = { label_of };

    fn is_same(&self, other: &Label) -> bool {
        match (self, other) {
            (Label::First, Label::First) => true,
            (
                Label::Named { name, parameters },
                Label::Named {
                    name: other_name,
                    parameters: other_parameters,
                },
            ) => name.is_same(other_name) && are_same(parameters, other_parameters),
            _ => false,
        }
    }
}

impl Same for Branch {
    ghost use Rattle.lc_seq.specs.Specification as S;
    ghost use Rattle.lc_seq.specs.SpecView.{branch_of};

    ghost Shown = { S.Branch };

    ghost shown = { branch_of };

    fn is_same(&self, other: &Branch) -> bool {
        self.label.is_same(&other.label)
            && self.guard.is_same(&other.guard)
            && are_same(&self.updates, &other.updates)
            && are_same(&self.replies, &other.replies)
    }
}

impl Same for Operation {
    ghost use Rattle.lc_seq.specs.Specification as S;
    ghost use Rattle.lc_seq.specs.SpecView.{operation_of};

    ghost Shown = { S.Operation };

    ghost shown = { operation_of };

    fn is_same(&self, other: &Operation) -> bool {
        self.name.is_same(&other.name)
            && are_same(&self.arguments, &other.arguments)
            && self.replies == other.replies
            && are_same(&self.branches, &other.branches)
    }
}

impl Same for TextSpec {
    ghost use Rattle.lc_seq.specs.Specification as S;
    ghost use Rattle.lc_seq.specs.TextView.{specification_of};

    ghost Shown = { S.Specification };

    ghost shown = { specification_of };

    fn is_same(&self, other: &TextSpec) -> bool {
        self.name().is_same(&other.name())
            && are_same(self.columns(), other.columns())
            && are_same(self.operations(), other.operations())
    }
}
