//! Developments, as values.
ghost use Rattle.std.specs.Prelude.{◌≡◌, true};
ghost use Rattle.lc_outline.specs.Development.{start_numbers};
ghost use Rattle.lc_outline.specs.DevelopmentView.{development_view};
ghost use Rattle.lc_outline.specs.Limits.{is_limited};
ghost use Rattle.lc_outline.specs.PartsView.{parts_view};
ghost use Rattle.lc_outline.specs.Resolved.{is_resolved};
ghost use Rattle.lc_tie.specs.TieView.{numbers_in};

use lc_outline::{Development, Parts};

/// A development is made of parts that are resolved and within their limits, and of no others.
pub fn making_a_development(parts: Parts) -> Development
    requires resolved { is_resolved (parts_view parts) ≡ true }
    requires limited { is_limited (parts_view parts) ≡ true }
    requires initial { numbers_in parts.tie ≡ start_numbers (parts_view parts) }
    ensures { development_view result ≡ parts_view parts }
{
    Development::of_parts(parts)
}
