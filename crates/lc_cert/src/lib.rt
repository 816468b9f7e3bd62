//! Certificates: proofs by the numbers of the conditions that they are to prove, their text, and how it is read.
#![tactic(auto)]

mod cert_reader;
mod certificate;
mod entry;
mod entry_reader;
mod form_reader;
pub mod laws;
mod naming;
mod printing;
mod reading;
mod scope;

pub use cert_reader::CertReader;
pub use certificate::Certificate;
pub use entry::Entry;
pub use entry_reader::{EntryReader, Single};
pub use naming::table_of;
pub use printing::certificate_text;
pub use reading::certificate_of;
pub use scope::InCertificate;
