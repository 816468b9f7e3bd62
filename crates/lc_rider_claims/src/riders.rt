//! Riders, and the paths past them.
ghost use Rattle.std.specs.Prelude.{◌≡◌, ◌↔◌, true, option_map, IfOk, IfSome, IsSome, OnErr, OnOk};
ghost use Rattle.lc_action.specs.ActionView.{first_of};
ghost use Rattle.lc_object.specs.EdgeView.{edge_of};
ghost use Rattle.lc_rider.specs.Paths as P;
ghost use Rattle.lc_rider.specs.PathView.{HavePaths};
ghost use Rattle.lc_rider.specs.RiderView.{choosing_of, formula_in, rider_of, riders_of};
ghost use Rattle.lc_seq.specs.Specification.{agree};
ghost use Rattle.lc_seq.specs.SpecView.{label_of};
ghost use Rattle.lc_seq.specs.TextView.{specification_of};
ghost use Rattle.lc_put.specs.PutNumbers.{columns_at, AreColumns};
ghost use Rattle.lc_table.specs.Tables.{term_in, IsTerm, Keeps};
ghost use Rattle.lc_term.specs.Said.{put};
ghost use Rattle.lc_term.specs.Truth.{is_ground};
ghost use Rattle.lc_term.specs.View.{formula_of};

use lc_base::{ColId, OutOfMemory};
use lc_rider::{Choosing, Edge, Path, Rider, When, paths, store_in};
use lc_seq::{Label, TextSpec};
use lc_table::{ColExprId, TermId, Terms};
use lc_term::Formula;
use std::alloc::Global;

/// A formula is a rider's condition exactly if it has no quantifier.
pub fn conditioning(formula: Formula) -> Option<When>
    ensures some { IsSome result ↔ (is_ground (formula_of formula) ≡ true) }
    ensures value { IfSome result (λ when. formula_in when ≡ formula_of formula) }
{
    When::new(formula)
}

/// A rider has its condition.
pub fn finding_a_condition(rider: &Rider) -> Option<&When>
    ensures { option_map (λ when. formula_in when.now) result ≡ (rider_of rider.now).condition }
{
    rider.condition()
}

/// A choice leaves the branches without a name, or the one that it names, with its count of terms.
pub fn leaving_a_branch(by: &Choosing, label: &Label) -> bool
    ensures { result ≡ agree (label_of label.now) (choosing_of by.now) }
{
    by.leaves(label)
}

/// A value is stored in a column, over what was stored there before.
pub fn storing_a_number(
    terms: &mut Terms,
    columns: &mut Vec<(ColId, ColExprId)>,
    column: ColId,
    index: TermId,
    value: TermId,
) -> Result<(), OutOfMemory>
    requires columns { AreColumns terms.old columns.old.items }
    requires index { IsTerm terms.old index }
    requires value { IsTerm terms.old value }
    ensures are { OnOk result (AreColumns terms.new columns.new.items) }
    ensures stored { OnOk result (columns_at terms.new columns.new.items ≡
        put (columns_at terms.old columns.old.items) (record { column = column.0; index = term_in terms.old index; value = term_in terms.old value })) }
    ensures unchanged { OnErr result (columns.new.items ≡ columns.old.items) }
    ensures kept { Keeps terms.old terms.new }
{
    store_in(terms, columns, column, index, value)
}

/// The paths of an edge are those that are defined, in their order.
pub fn listing_paths(
    alloc: Global,
    terms: &mut Terms,
    specification: &TextSpec,
    edge: Edge<'_>,
) -> Result<Vec<Path>, OutOfMemory>
    ensures paths { IfOk result (λ ps. HavePaths terms.new ps.items
        (P.paths (specification_of specification.now).operations (first_of edge.entry.system) 0 edge.entry.operation.0
        (P.edge_variables edge.entry.variables (edge_of edge.entry.code.now)) (riders_of edge.entry.riders.now) (P.path_start (edge_of edge.entry.code.now)))) }
    ensures kept { Keeps terms.old terms.new }
{
    paths(alloc, terms, specification, edge)
}
