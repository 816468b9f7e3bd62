//! What is said of a development and a certificate: accepted, or the first refusal.
ghost use Rattle.std.specs.Prelude.{◌≡◌, length};
ghost use Rattle.lc_outline.specs.DevelopmentView.{development_view};
ghost use Rattle.lc_cond.specs.Conditions.{conditions};
ghost use Rattle.lc_sound.specs.Derived.{AreDerived};
ghost use Rattle.lc_sound.specs.Linearizable.{IsLinearizableObject};

use lc_base::Refusal;
use lc_cond::laws::conditions_use_their_variables;
use lc_outline::Development;
use lc_sound::{derived_conditions_are_valid, linearizable_runs};

/// What is said of a development file and a certificate file.
#[derive(Drop)]
pub enum Verdict {
    /// The certificate has a derivation of each condition of the development, and no other proof.
    Accepted(Accepted),
    /// The first refusal of the files.
    Refused(Refusal),
}

/// What a session comes to: a verdict that hands back the development which is not accepted.
#[derive(Drop)]
pub enum Finished {
    /// The certificate has a derivation of each condition of the development, and no other proof.
    Accepted(Accepted),
    /// The first refusal of the certificate, and the development.
    Refused(Refusal, Development),
}

/// A development each of whose conditions has a derivation.
#[derive(Drop)]
pub struct Accepted {
    development: Development,
    count: u64,
    ghost derived: { ∥ AreDerived (development_view development) ∥₁ },
    ghost counted: { count ≡ length (conditions (development_view development)) },
}

/// If each condition of a development has a derivation, its object is linearizable by its specification.
fn derived_is_linearizable(development: &Development)
    requires { AreDerived (development_view development.now) }
    ensures { IsLinearizableObject (development_view development.now).specification (development_view development.now).object }
{
    derived_conditions_are_valid(development);
    linearizable_runs(development);
}

impl Accepted {
    ghost use Rattle.std.specs.Prelude.{◌≡◌, ℕ, List, Ok, length};
    ghost use Rattle.lc_outline.specs.DevelopmentView.{development_view};
    ghost use Rattle.lc_cond.specs.Conditions.{conditions};
    ghost use Rattle.lc_sound.specs.Derived.{AreDerived};
    ghost use Rattle.lc_sound.specs.Linearizable.{IsLinearizableObject};
    ghost use Rattle.lc_check.specs.VerdictView.{development_in, IsCountOn};

    // The development, each of whose conditions has a derivation; `count` is their number.
    fn new(development: Development, count: u64) -> Accepted
        requires derived { ∥ AreDerived (development_view development) ∥₁ }
        requires counted { count ≡ length (conditions (development_view development)) }
        ensures { development_in result ≡ development_view development }
    {
        Accepted { development, count }
    }

    /// A development each of whose conditions a certificate file proves; `count` is their number.
    pub fn proven(development: Development, count: u64) -> Accepted
        requires { (cert : List ℕ) × IsCountOn (development_view development) cert (Ok count) }
        ensures shown { development_in result ≡ development_view development }
        ensures linearizable { IsLinearizableObject (development_view development).specification (development_view development).object }
    {
        conditions_use_their_variables(&development);
        derived_is_linearizable(&development);
        Accepted::new(development, count)
    }

    /// The development.
    pub fn development(&self) -> &Development
        ensures shown { development_view result.now ≡ development_in self.now }
        ensures derived { ∥ AreDerived (development_in self.now) ∥₁ }
    {
        &self.development
    }

    /// The name of its object.
    pub fn name(&self) -> &str
        ensures { result.now ≡ (development_in self.now).object.name }
    {
        self.development.parts().object.parts().name.as_str()
    }

    /// How many conditions it has.
    pub fn count(&self) -> u64
        ensures { result ≡ length (conditions (development_in self.now)) }
    {
        self.count
    }
}
