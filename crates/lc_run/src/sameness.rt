//! Whether labels are the same: part by part, as what they stand for.
ghost use Rattle.std.specs.Prelude.{◌≡◌, ◌↔◌, IsTrue};
ghost use Rattle.lc_seq.specs.SpecView.{choice_of};
ghost use Rattle.lc_ride.specs.RideView.{mark_of, marks_of};
ghost use Rattle.lc_steps.specs.StepView.{what_of};
ghost use Rattle.lc_run.specs.LabelView.{label_of, labels_of};
ghost use Rattle.lc_run.specs.Labels.{labels_by};

use crate::label::Label;
use lc_object::EdgeKind;
use lc_ride::Mark;
use lc_seq::Pick;
use lc_steps::What;

fn are_same_numbers(left: &[i64], right: &[i64]) -> bool
    ensures { IsTrue result ↔ (left.now ≡ right.now) }
{
    left == right
}

fn is_same_kind(left: EdgeKind, right: EdgeKind) -> bool
    ensures { IsTrue result ↔ (left ≡ right) }
{
    match left {
        EdgeKind::Next => matches!(right, EdgeKind::Next),
        EdgeKind::Then => matches!(right, EdgeKind::Then),
        EdgeKind::Else => matches!(right, EdgeKind::Else),
    }
}

fn is_same_what(left: &What, right: &What) -> bool
    ensures { IsTrue result ↔ (what_of left.now ≡ what_of right.now) }
{
    match (left, right) {
        (
            What::Invoked { operation, numbers },
            What::Invoked {
                operation: other,
                numbers: others,
            },
        ) => operation.0 == other.0 && are_same_numbers(numbers, others),
        (
            What::Moved { point, edge },
            What::Moved {
                point: other,
                edge: other_edge,
            },
        ) => point.0 == other.0 && is_same_kind(*edge, *other_edge),
        (What::Returned(numbers), What::Returned(others)) => are_same_numbers(numbers, others),
        _ => false,
    }
}

fn is_same_pick(left: &Pick, right: &Pick) -> bool
    ensures { IsTrue result ↔ (choice_of left.now ≡ choice_of right.now) }
{
    match (left, right) {
        (Pick::First, Pick::First) => true,
        (
            Pick::Named { name, numbers },
            Pick::Named {
                name: other,
                numbers: others,
            },
        ) => name.as_str() == other.as_str() && are_same_numbers(numbers, others),
        _ => false,
    }
}

fn is_same_mark(left: &Mark, right: &Mark) -> bool
    ensures { IsTrue result ↔ (mark_of left.now ≡ mark_of right.now) }
{
    left.client == right.client
        && left.note == right.note
        && is_same_pick(&left.choice, &right.choice)
        && are_same_numbers(&left.reply, &right.reply)
}

fn are_same_marks(left: &[Mark], right: &[Mark]) -> bool
    ensures { IsTrue result ↔ (marks_of left.now ≡ marks_of right.now) }
{
    let mut rest = right;
    for mark in left {
        let Some((first, others)) = rest.split_first() else {
            return false;
        };
        if !is_same_mark(mark, first) {
            return false;
        }
        rest = others;
    }
    rest.is_empty()
}

/// Whether two labels are the same.
pub fn is_same_label(left: &Label, right: &Label) -> bool
    ensures { IsTrue result ↔ (label_of left.now ≡ label_of right.now) }
{
    left.client == right.client
        && is_same_what(&left.what, &right.what)
        && are_same_marks(&left.marks, &right.marks)
}

/// Whether a list is that of a client's labels among these.
pub(crate) fn is_list_of(labels: &[Label], client: u32, list: &[Label]) -> bool
    ensures { IsTrue result ↔ (labels_by client (labels_of labels.now) ≡ labels_of list.now) }
{
    let mut rest = list;
    for label in labels {
        if label.client == client {
            let Some((first, others)) = rest.split_first() else {
                return false;
            };
            if !is_same_label(label, first) {
                return false;
            }
            rest = others;
        }
    }
    rest.is_empty()
}
