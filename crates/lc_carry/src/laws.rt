//! What holds of proofs with other columns, and of the proofs that are carried. Each function is a law: it does nothing, and its
//! contract is the law.
ghost use Rattle.lc_carry.specs.CarriedDerives.{CarriedDerives};
ghost use Rattle.lc_carry.specs.CarriedFrom.{CarriesLeast, CarriesNothingElse};
ghost use Rattle.lc_carry.specs.RenamedDerivations.{RenamedDerives};

/// To a condition the proof of the least old condition is carried that says the same, and whose proof names only columns that there
/// are, with each column replaced by the one of its name; and no other proof is carried.
pub fn the_least_is_carried()
    ensures least { CarriesLeast }
    ensures nothing_else { CarriesNothingElse }
{}

/// If no two columns of the old development have one name, a proof that is carried to the same condition derives it.
pub fn carried_proofs_derive()
    ensures { CarriedDerives }
{}

/// If no two columns become one, a proof of a goal is, with each column replaced, a proof of the goal with each column replaced.
pub fn renamed_proofs_derive()
    ensures { RenamedDerives }
{}
