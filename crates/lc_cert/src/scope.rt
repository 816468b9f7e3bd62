//! How names are read in what is written by the numbers of conditions.
ghost use Rattle.std.specs.Prelude.{◌≡◌, ◌<◌, ◌^◌, length};
ghost use Rattle.lc_reading.specs.TableView.{listed};

use lc_base::{ColId, OutOfMemory};
use lc_reading::NameTable;
use lc_text::{ColumnUse, Extra, Scope};

/// How names are read in the proofs of a certificate: variables are written `?k`, and columns by these names.
#[derive(Clone, Copy)]
pub struct InCertificate<'a, 'b> {
    columns: &'b NameTable<'a>,
    ghost few: { length (listed columns.now) < 2 ^ 32 },
}

impl<'a, 'b> InCertificate<'a, 'b> {
    ghost use Rattle.std.specs.Prelude.{◌≡◌, IfOk};
    ghost use Rattle.lc_reading.specs.TableView.{listed};

    /// The names of these columns. `OutOfMemory` is returned also if a column's number has more than 32 bits, as in no
    /// development.
    pub fn new(columns: &'b NameTable<'a>) -> Result<InCertificate<'a, 'b>, OutOfMemory>
        ensures { IfOk result (λ names. listed names.columns.now ≡ listed columns.now) }
    {
        if columns.len() > u32::MAX as usize {
            return Err(OutOfMemory);
        }
        Ok(InCertificate { columns })
    }
}

impl Scope for InCertificate<'_, '_> {
    ghost use Rattle.lc_reading.specs.TableView.{listed};
    ghost use Rattle.lc_cert.specs.ColumnNames.{names_with};

    ghost names = { λ scope. names_with (listed scope.columns.now) };

    fn variable(&self, _: &str) -> Option<u32> {
        None
    }

    #[tactic(auto, using(lc_reading::proofs::Places::place_below))]
    fn column(&self, name: &str) -> ColumnUse {
        match self.columns.place(name) {
            Some(place) => ColumnUse::Usable(ColId(place as u32)),
            None => ColumnUse::Undeclared,
        }
    }

    fn allows(&self, _: Extra) -> bool {
        true
    }
}
