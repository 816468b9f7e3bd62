//! Updates of columns: what is stored, as terms and as the numbers that they come to.
use crate::term::Term;
use lc_base::ColId;

/// A value that is stored in a column at an index.
#[derive(Drop)]
pub struct Update {
    pub column: ColId,
    pub index: Term,
    pub value: Term,
}

/// A number that is stored in a cell of a column.
#[derive(Clone, Copy)]
pub struct Write {
    pub column: ColId,
    pub index: i64,
    pub value: i64,
}

/// 0 in cell 0 of column 0, which fills the places of an array that hold no write yet.
impl Default for Write {
    ghost use Rattle.std.specs.Prelude.{◌≡◌, pos};
    ghost use Rattle.lc_term.specs.UpdateView.{write_view};

    ghost is_default = { λ write. write_view write ≡ record { column = 0; index = pos 0; value = pos 0 } };

    fn default() -> Write {
        Write {
            column: ColId(0),
            index: 0,
            value: 0,
        }
    }
}
