//! The names that the instructions of a body see.
ghost use Rattle.std.specs.Prelude.{◌≡◌, ◌<◌, ◌^◌, length, option_map};
ghost use Rattle.lc_object_text.specs.DeclaredView.{spans_view};
ghost use Rattle.lc_object_text.specs.ObjectNames.{column_use, row_at};

use crate::code_scope::{CodeScope, Row};
use crate::declared::{Body, Declared, Span};
use lc_base::PointId;
use lc_object::{ArrayId, LocalId};
use lc_reading::is_system_column;
use lc_text::{ColumnUse, Extra, Scope};

/// How names are read in the instructions of a body.
#[derive(Clone, Copy)]
pub struct InBody<'a, 'b> {
    pub declared: &'b Declared<'a>,
    pub body: &'b Body<'a>,
}

/// What the column at this place, or a name without a place, is to code; the concrete columns are those from `first` up to `end`.
fn column_use(first: u32, end: u32, is_system: bool, place: Option<usize>) -> ColumnUse
    ensures { result ≡ column_use first end is_system place }
{
    match place {
        Some(place) if first as usize <= place && place < end as usize => ColumnUse::Misplaced,
        Some(_) => ColumnUse::Hidden,
        None if is_system => ColumnUse::Hidden,
        None => ColumnUse::Undeclared,
    }
}

fn row_at(spans: &[Span], place: Option<usize>) -> Option<Row>
    requires { length spans.now < 2 ^ 32 }
    ensures { option_map (λ row. (row.array.0, row.width)) result ≡ row_at (spans_view spans.now) place }
{
    let place = place?;
    let span = spans.get(place)?;
    Some(Row {
        array: ArrayId(place as u32),
        width: span.width,
    })
}

impl Scope for InBody<'_, '_> {
    ghost use Rattle.lc_object_text.specs.DeclaredView.{declared_view, body_view};
    ghost use Rattle.lc_object_text.specs.ObjectNames.{code_names};

    ghost names = { λ scope. code_names (declared_view scope.declared.now) (body_view scope.body.now) };

    fn variable(&self, name: &str) -> Option<u32> {
        if name == "self" {
            return Some(1);
        }
        let place = self.body.variable(name)?;
        Some(2 + place as u32)
    }

    fn column(&self, name: &str) -> ColumnUse {
        let declared = self.declared;
        let place = declared.columns.place(name);
        column_use(
            declared.abstracts,
            declared.auxiliaries,
            is_system_column(name),
            place,
        )
    }

    fn allows(&self, _: Extra) -> bool {
        false
    }
}

impl CodeScope for InBody<'_, '_> {
    ghost use Rattle.lc_object_text.specs.DeclaredView.{declared_view, body_view};
    ghost use Rattle.lc_object_text.specs.ObjectNames.{body_names};

    ghost code = { λ scope. body_names (declared_view scope.declared.now) (body_view scope.body.now) };

    fn array(&self, name: &str) -> Option<Row> {
        row_at(&self.declared.spans, self.declared.arrays.place(name))
    }

    fn target(&self, name: &str) -> Option<LocalId> {
        let place = self.body.locals.place(name)?;
        let variable = 2 + self.body.argument_count() as usize + place;
        Some(LocalId(variable as u32))
    }

    fn label(&self, name: &str) -> Option<PointId> {
        let place = self.body.labels.place(name)?;
        Some(PointId(self.body.first + place as u32))
    }

    fn replies(&self) -> Option<u64> {
        self.body.replies
    }
}
