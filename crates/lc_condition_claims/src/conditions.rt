//! Conditions: the whole list, its parts, the names in their lines, and the lines that are asked for.
ghost use Rattle.std.specs.Prelude.{◌≡◌, IfOk, OnErr, map, option_map};
ghost use Rattle.lc_cond.specs.ConditionView.{condition_in, AreConditions};
ghost use Rattle.lc_cond.specs.Conditions.{conditions};
ghost use Rattle.lc_cond.specs.Numbering.{IsNumbering, IsPartWith};
ghost use Rattle.lc_cond.specs.Stream.{IsNextPart};
ghost use Rattle.lc_cond_text.specs.Chosen.{chosen_text};
ghost use Rattle.lc_cond_text.specs.Shown.{IsLaid, line_at};
ghost use Rattle.lc_outline.specs.ColumnNames.{column_names, name_at};
ghost use Rattle.lc_outline.specs.EdgeWords.{edge_word};
ghost use Rattle.lc_outline.specs.DevelopmentView.{development_view};
ghost use Rattle.lc_outline.specs.PartsView.{parts_view};
ghost use Rattle.lc_reading.specs.Words.{names_in};
ghost use Rattle.lc_table.specs.Tables.{Keeps};

use lc_base::{ColId, OutOfMemory};
use lc_cond::{Condition, ConditionStream, NumberedPart, Numbering, conditions};
use lc_cond_text::{chosen_conditions, condition_over_lines};
use lc_object::EdgeKind;
use lc_outline::{Development, Parts, column_name, column_names, edge_word};
use lc_table::Terms;
use std::alloc::Global;

/// The conditions of a development are exactly the defined list, in its order, and no formula of the table changes.
pub fn listing_conditions(
    alloc: Global,
    terms: &mut Terms,
    development: &Development,
) -> Result<Vec<Condition>, OutOfMemory>
    ensures are { IfOk result (λ cs. AreConditions terms.new cs.items) }
    ensures list { IfOk result (λ cs. map (condition_in terms.new) cs.items ≡ conditions (development_view development.now)) }
    ensures kept { Keeps terms.old terms.new }
{
    conditions(alloc, terms, development)
}

/// The next part is returned: what is left of the list before is this part, and then what is left afterwards. On `OutOfMemory` the
/// same part is left.
pub fn listing_a_part(
    stream: &mut ConditionStream,
    development: &Development,
    terms: &mut Terms,
) -> Result<Option<Vec<Condition>>, OutOfMemory>
    ensures next { IfOk result (IsNextPart (development_view development.now) terms.new stream.old stream.new) }
    ensures unchanged { OnErr result (stream.new ≡ stream.old) }
    ensures kept { Keeps terms.old terms.new }
{
    stream.next_part(development, terms)
}

/// Conditions that follow one another in the list are made, and the one of `number` is among them, if there is one.
pub fn making_a_part(
    numbering: &Numbering,
    alloc: Global,
    development: &Development,
    terms: &mut Terms,
    number: u64,
) -> Result<NumberedPart, OutOfMemory>
    requires { IsNumbering (development_view development.now) numbering.now }
    ensures part { IfOk result (IsPartWith (development_view development.now) terms.new number) }
    ensures kept { Keeps terms.old terms.new }
{
    numbering.part_with(alloc, development, terms, number)
}

/// The names of all columns are returned by the numbers of the columns, those of the system columns last.
pub fn naming_columns<'a>(alloc: Global, parts: &'a Parts) -> Result<Vec<&'a str>, OutOfMemory>
    ensures { IfOk result (λ all. names_in all.items ≡ column_names (parts_view parts.now)) }
{
    column_names(alloc, parts)
}

/// The name of a column is the one in this list, and no text after the last column.
pub fn naming_a_column(parts: &Parts, column: ColId) -> &str
    ensures { result.now ≡ name_at (column_names (parts_view parts.now)) column.0 }
{
    column_name(parts, column)
}

/// An edge has the word that is defined.
pub fn naming_an_edge(kind: EdgeKind) -> &'static str
    ensures { result.now ≡ edge_word kind }
{
    edge_word(kind)
}

/// The line of condition `number` is returned, laid out over lines, if there is such a condition.
pub fn laying_out_a_condition(
    alloc: Global,
    development: &Development,
    number: u64,
) -> Result<Option<Vec<u8>>, OutOfMemory>
    ensures { IfOk result (IsLaid (line_at (development_view development.now) number)) }
{
    condition_over_lines(alloc, development, number)
}

/// The lines of exactly the conditions with this POINT and this KIND, if these are given, are returned, and their number.
pub fn choosing_conditions(
    alloc: Global,
    development: &Development,
    point: Option<&str>,
    kind: Option<&str>,
) -> Result<Vec<u8>, OutOfMemory>
    ensures { IfOk result (λ text. text.items ≡ chosen_text (option_map (λ a. a.now) point.entry) (option_map (λ a. a.now) kind.entry) (development_view development.now)) }
{
    chosen_conditions(alloc, development, point, kind)
}
