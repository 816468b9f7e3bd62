//! Tests of what no contract says, and no case of the program `lc_cases`: of linear forms and their refutations, derivations and formula
//! files.
#![tactic(auto)]

#[cfg(test)]
mod kernel_tests;
#[cfg(test)]
mod linear_tests;
#[cfg(test)]
mod refutation_tests;
#[cfg(test)]
mod tableau_tests;
#[cfg(test)]
mod whole_tests;
