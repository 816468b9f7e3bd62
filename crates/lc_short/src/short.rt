//! The type of short developments.
use lc_outline::Development;

/// A development that may lack actions, assertions and sections. What it lacks is put in as nothing: no assertion; and at each
/// edge that lacks its action a call of one action, the stand-in, which is the last one and does nothing.
#[derive(Drop)]
pub struct Short {
    pub(crate) whole: Development,
    pub(crate) lacking: Vec<u64>,
}

impl Short {
    ghost use Rattle.std.specs.Prelude.{◌≡◌};
    ghost use Rattle.lc_outline.specs.DevelopmentView.{development_view};
    ghost use Rattle.lc_short.specs.ShortView.{short_view};

    /// The development, with what is lacking put in as nothing.
    pub fn whole(&self) -> &Development
        ensures { development_view result.now ≡ (short_view self.now).whole }
    {
        &self.whole
    }

    /// The places in the file, in order, at which the call of an action lacks. If there are any, the last action is the stand-in,
    /// which is called there.
    pub fn lacking(&self) -> &[u64]
        ensures { result.now ≡ (short_view self.now).lacking }
    {
        &self.lacking
    }
}
