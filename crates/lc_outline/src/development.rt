//! The type of developments, which are resolved and within their limits.
ghost use Rattle.std.specs.Prelude.{◌≡◌, true};
ghost use Rattle.lc_outline.specs.Development.{start_numbers};
ghost use Rattle.lc_outline.specs.PartsView.{parts_view};
ghost use Rattle.lc_outline.specs.Limits.{is_limited};
ghost use Rattle.lc_outline.specs.Resolved.{is_resolved};
ghost use Rattle.lc_tie.specs.TieView.{numbers_in};

use crate::parts::Parts;

/// A development: a specification, an object, and why the object meets the specification. All names are resolved, as
/// `is_resolved` says, and it is within its limits, as `is_limited` says.
#[derive(Drop)]
pub struct Development {
    pub(crate) parts: Parts,
    ghost resolved: { is_resolved (parts_view parts) ≡ true },
    ghost limited: { is_limited (parts_view parts) ≡ true },
    ghost initial: { numbers_in parts.tie ≡ start_numbers (parts_view parts) },
}
