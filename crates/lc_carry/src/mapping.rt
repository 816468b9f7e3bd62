//! Which column is put in place of another.
ghost use Rattle.std.specs.Prelude.{◌≡◌, is_some, option_map};
ghost use Rattle.lc_carry.specs.Renaming.{column_for, column_or};

use lc_base::ColId;

/// The column in place of one, if there is one.
fn column_for(columns: &[Option<ColId>], column: ColId) -> Option<ColId>
    ensures { option_map (λ c. c.0) result ≡ column_for columns.now column.0 }
{
    *columns.get(column.0 as usize)?
}

/// Whether there is a column in place of one.
pub(crate) fn has_column(columns: &[Option<ColId>], column: ColId) -> bool
    ensures { result ≡ is_some (column_for columns.now column.0) }
{
    column_for(columns, column).is_some()
}

/// The column in place of one; that one itself if there is none.
pub(crate) fn column_or(columns: &[Option<ColId>], column: ColId) -> ColId
    ensures { result.0 ≡ column_or (column_for columns.now) column.0 }
{
    match column_for(columns, column) {
        Some(other) => other,
        None => column,
    }
}
