//! The type of certificates: proofs, by numbers that rise.
ghost use Rattle.std.specs.Prelude.{◌≡◌, true, None};
ghost use Rattle.lc_cert.specs.Certificates.{is_rising};
ghost use Rattle.lc_cert.specs.EntryView.{entries_of};

use crate::entry::Entry;
use lc_kernel::Proof;

/// A certificate: proofs, by numbers that rise.
#[derive(Drop)]
pub struct Certificate {
    entries: Vec<Entry>,
    ghost rising: { is_rising None (entries_of entries.items) ≡ true },
}

impl Certificate {
    ghost use Rattle.std.specs.Prelude.{◌≡◌, true, None, option_map};
    ghost use Rattle.lc_kernel.specs.View.{proof_of};
    ghost use Rattle.lc_cert.specs.Certificates.{is_rising, proof_at};
    ghost use Rattle.lc_cert.specs.CertificateView.{entries_in};
    ghost use Rattle.lc_cert.specs.EntryView.{entries_of};

    /// The certificate of these entries, whose numbers rise.
    pub fn of_entries(entries: Vec<Entry>) -> Certificate
        requires { is_rising None (entries_of entries.items) ≡ true }
        ensures { entries_in result ≡ entries_of entries.items }
    {
        Certificate { entries }
    }

    /// Its entries, by their numbers.
    pub fn entries(&self) -> &[Entry]
        ensures shown { entries_of result.now ≡ entries_in self.now }
        ensures rising { is_rising None (entries_of result.now) ≡ true }
    {
        &self.entries
    }

    /// The proof of this number, if there is one.
    pub fn proof(&self, number: u64) -> Option<&Proof>
        ensures { option_map (λ p. proof_of p.now) result ≡ proof_at (entries_in self.now) number }
    {
        let place = self
            .entries
            .as_slice()
            .partition_point(|entry| entry.number < number);
        match self.entries.get(place) {
            Some(entry) if entry.number == number => Some(&entry.proof),
            _ => None,
        }
    }
}
