//! What no contract says of names, s-expressions, whole and in pieces, their places, terms and formulas.
#![tactic(auto)]

#[cfg(test)]
mod base_tests;
#[cfg(test)]
mod layout_tests;
#[cfg(test)]
mod part_tests;
#[cfg(test)]
mod place_tests;
#[cfg(test)]
mod sexp_tests;
#[cfg(test)]
mod table_tests;
#[cfg(test)]
mod term_tests;
#[cfg(test)]
mod term_text_tests;
