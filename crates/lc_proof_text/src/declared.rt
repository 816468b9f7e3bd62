//! The names that a formula file declares.
ghost use Rattle.std.specs.Prelude.{◌<◌, ◌^◌, length};
ghost use Rattle.lc_reading.specs.TableView.{listed};

use lc_reading::NameTable;

/// The names that a formula file declares.
pub(crate) struct Declared<'a> {
    pub(crate) variables: NameTable<'a>,
    pub(crate) columns: NameTable<'a>,
    ghost few_variables: { length (listed variables) < 2 ^ 32 },
    ghost few_columns: { length (listed columns) < 2 ^ 32 },
}

// Written out and not derived, so that dropping it is one call.
impl Drop for Declared<'_> {
    fn drop(self) {
        let Declared {
            variables: _,
            columns: _,
        } = self;
    }
}
