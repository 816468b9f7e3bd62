//! What takes the bytes of a file as they are read.
ghost use Rattle.std.specs.Prelude.{◌≡◌};

use lc_base::OutOfMemory;
use lc_check::{CertificateSession, Prover};
use lc_sexp::FormsReader;

/// Takes a file piece by piece.
pub trait Sink {
    ghost use Rattle.std.specs.Prelude.{ℕ, List, OnOk};
    ghost use Rattle.lincheck.specs.Reading.{IsFedOn};

    // What the bytes are about, as a certificate is about a development.
    ghost About: { Type 0 };

    // It has been fed these bytes.
    ghost WasFed: { Self → About → List ℕ → Type 0 };

    /// Takes the bytes that come next.
    fn feed(&mut self, piece: &[u8]) -> Result<(), OutOfMemory>
        ensures { OnOk result (IsFedOn WasFed self.old self.new piece.now) };
}

/// The bytes themselves.
impl Sink for Vec<u8> {
    ghost About = { Unit {0} };

    ghost WasFed = { λ bytes _ fed. bytes.items ≡ fed };

    fn feed(&mut self, piece: &[u8]) -> Result<(), OutOfMemory> {
        self.extend_from_slice(piece)?;
        Ok(())
    }
}

/// Their forms.
impl Sink for FormsReader {
    ghost use Rattle.lc_sexp.specs.Pieces.{WasFed as HasRead};

    ghost About = { Unit {0} };

    ghost WasFed = { λ reader _ fed. HasRead reader fed };

    fn feed(&mut self, piece: &[u8]) -> Result<(), OutOfMemory> {
        FormsReader::feed(self, piece)
    }
}

/// A session, and who finds out whether its proofs hold.
#[derive(Drop)]
pub struct Proving<P: Prover + Drop> {
    pub session: CertificateSession,
    pub prover: P,
}

/// A certificate's proofs, each checked as soon as it has ended.
impl<P: Prover + Drop> Sink for Proving<P> {
    ghost use Rattle.lc_outline.specs.Development.{Development};
    ghost use Rattle.lc_check.specs.Stages.{IsFedOn as IsSessionFed};

    ghost About = { Development };

    ghost WasFed = { λ proving development fed. IsSessionFed development fed proving.session };

    fn feed(&mut self, piece: &[u8]) -> Result<(), OutOfMemory> {
        self.session.feed_by(&mut self.prover, piece)
    }
}
