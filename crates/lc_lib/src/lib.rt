//! The library of objects, each with its development, its hints and a certificate.
#![tactic(auto)]

mod certifying;

pub use certifying::certificate;
pub use lc_find::FindFault;
pub use lc_lib_texts::{Lib, development, hints};
