//! The columns that a development file declares, with those of the system.
ghost use Rattle.std.specs.Prelude.{◌+◌, ◌≤◌, ◌^◌, length};
ghost use Rattle.lc_reading.specs.TableView.{listed};

use lc_reading::NameTable;

/// The columns that a file declares; the system columns come after them.
#[derive(Clone, Copy)]
pub struct Columns<'a, 'b> {
    /// Abstract, then concrete, then auxiliary.
    pub(crate) names: &'b NameTable<'a>,
    /// The place of the first column that is auxiliary.
    pub(crate) auxiliaries: u32,
    /// The place of the column that is asked for next, as far as that is guessed.
    pub(crate) likely: usize,
    ghost few: { length (listed names.now) + 12 ≤ 2 ^ 32 },
}
