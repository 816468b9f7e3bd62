//! The word of a condition's line that names its point.
ghost use Rattle.std.specs.List.{list_any};
ghost use Rattle.std.specs.Str.{bytes_eq};
ghost use Rattle.lc_object.specs.View.{point_of};
ghost use Rattle.lc_cond_text.specs.Chosen.{is_point_word, names_of};
ghost use Rattle.std.specs.Prelude.{◌≡◌, map, option_map};
ghost use Rattle.lc_cond_text.specs.ConditionText.{or_hyphen, point_names};
ghost use Rattle.lc_outline.specs.ColumnNames.{name_at};
ghost use Rattle.lc_outline.specs.DevelopmentView.{development_view};

use lc_base::PointId;
use lc_object::Point;
use lc_outline::Development;

/// The name of a point; if there is none, a hyphen.
pub(crate) fn point_word(development: &Development, point: Option<PointId>) -> &str
    ensures { result.now ≡ or_hyphen (name_at (point_names (development_view development.now))) (option_map (λ p. p.0) point) }
{
    let Some(point) = point else {
        return "-";
    };
    let place = point.0 as usize;
    let points = &development.parts().object.parts().points;
    if place < points.len() {
        points[place].name.as_str()
    } else {
        ""
    }
}

/// Whether one of these points has this name.
fn is_named(points: &[Point], name: &str) -> bool
    ensures { result ≡ list_any (λ other. bytes_eq other name.now) (names_of (map point_of points.now)) }
{
    for point in points {
        if point.name.as_str() == name {
            return true;
        }
    }
    false
}

/// Whether lines of a development's conditions may have this word as their POINT: the name of a point, or a hyphen.
pub fn is_point_word(development: &Development, word: &str) -> bool
    ensures { result ≡ is_point_word word.now (development_view development.now) }
{
    word == "-" || is_named(&development.parts().object.parts().points, word)
}
