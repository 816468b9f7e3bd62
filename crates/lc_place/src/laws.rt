//! A law of places. It is the contract of a function without effect.
ghost use Rattle.std.specs.Prelude.{ℕ, List};
ghost use Rattle.lc_sexp.specs.Trees.{Trees};
ghost use Rattle.lc_sexp.specs.Reads.{ReadsAs};
ghost use Rattle.lc_place.specs.Place.{IsItem, StandsAt};
ghost use Rattle.lc_place.specs.declared.place.Place.{Place};

/// If a file reads as trees, their item of a number is at its place: the tokens from there on begin with those of the item.
pub fn the_item_stands_at_its_place()
    ensures { (bytes : List ℕ) (ts : Trees) (number : ℕ) (p : Place) → ReadsAs bytes ts → IsItem bytes number p → StandsAt bytes ts number p }
{}
