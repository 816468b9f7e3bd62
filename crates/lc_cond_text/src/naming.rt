//! The names by which conditions are reported.
ghost use Rattle.std.specs.Prelude.{◌≡◌, [], ◌∷◌, codes};
ghost use Rattle.lc_outline.specs.DevelopmentView.{development_view};
ghost use Rattle.lc_outline.specs.ColumnNames.{name_at, column_names};
ghost use Rattle.lc_cond_text.specs.ConditionText.{point_names, action_names};

use lc_base::{ColId, PointId};
use lc_outline::Development;

/// The name of a column; an empty text after the last.
pub(crate) fn column_name(development: &Development, column: ColId) -> &str
    ensures { result.now ≡ name_at (column_names (development_view development.now)) column.0 }
{
    lc_outline::column_name(development.parts(), column)
}

/// The name of a point; an empty text after the last.
pub(crate) fn point_name(development: &Development, point: PointId) -> &str
    ensures { result.now ≡ name_at (point_names (development_view development.now)) point.0 }
{
    let place = point.0 as usize;
    let points = &development.parts().object.parts().points;
    if place < points.len() {
        points[place].name.as_str()
    } else {
        ""
    }
}

// The names of the actions that are not declared, by their places after the declared ones.
fn built_in_name(place: usize) -> &'static str
    ensures { result.now ≡ name_at (codes "enter" ∷ codes "leave" ∷ []) place }
{
    match place {
        0 => "enter",
        1 => "leave",
        _ => "",
    }
}

/// The name of an action; an empty text after the last.
pub(crate) fn action_name(development: &Development, place: usize) -> &str
    ensures { result.now ≡ name_at (action_names (development_view development.now)) place }
{
    let actions = &development.parts().actions;
    if place < actions.len() {
        actions[place].name.as_str()
    } else {
        built_in_name(place - actions.len())
    }
}
