//! The verdict on a development file and a certificate file: if they are accepted, the development's object is linearizable.
#![tactic(auto)]

mod certificate_session;
mod checking;
pub mod laws;
mod progress;
mod proving;
mod session;
mod verdict;
mod walk;

pub use certificate_session::CertificateSession;
pub use checking::{check, proven_count};
pub use proving::{Alone, Prover, prove_one};
pub use session::Session;
pub use verdict::{Accepted, Finished, Verdict};
pub use walk::Walk;
