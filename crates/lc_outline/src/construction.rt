//! How a development is made of its parts, and taken apart.
use crate::development::Development;
use crate::parts::Parts;

impl Development {
    ghost use Rattle.std.specs.Prelude.{◌≡◌, true};
    ghost use Rattle.lc_outline.specs.Limits.{is_limited};
    ghost use Rattle.lc_outline.specs.Resolved.{is_resolved};
    ghost use Rattle.lc_outline.specs.Development.{start_numbers};
    ghost use Rattle.lc_outline.specs.DevelopmentView.{development_view};
    ghost use Rattle.lc_outline.specs.PartsView.{parts_view};
    ghost use Rattle.lc_tie.specs.TieView.{numbers_in};

    /// The development of these parts.
    pub fn of_parts(parts: Parts) -> Development
        requires resolved { is_resolved (parts_view parts) ≡ true }
        requires limited { is_limited (parts_view parts) ≡ true }
        requires initial { numbers_in parts.tie ≡ start_numbers (parts_view parts) }
        ensures { development_view result ≡ parts_view parts }
    {
        Development { parts }
    }

    /// Its parts.
    pub fn parts(&self) -> &Parts
        ensures shown { parts_view result.now ≡ development_view self.now }
        ensures resolved { is_resolved (parts_view result.now) ≡ true }
        ensures limited { is_limited (parts_view result.now) ≡ true }
        ensures initial { numbers_in result.now.tie ≡ start_numbers (parts_view result.now) }
    {
        &self.parts
    }
}
