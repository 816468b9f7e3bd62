//! What names stand for at a place of a file, as a trait.
ghost use Rattle.std.specs.Prelude.{◌≡◌};

use lc_base::ColId;

/// What the name of a column stands for at a place of a file.
#[derive(Clone, Copy)]
pub enum ColumnUse {
    /// A column that may be read here.
    Usable(ColId),
    /// A declared column that is not read in this way. It is reported as `Shape` at the list that reads it.
    Misplaced,
    /// A declared column that object code does not see. It is reported as `Auxiliary` at the list that reads it.
    Hidden,
    /// No column has this name. It is reported as `Unknown` at the name.
    Undeclared,
}

/// What is allowed only at some places of files.
#[derive(Clone, Copy)]
pub enum Extra {
    /// `forall` and `exists`.
    Quantifiers,
    /// `store` and `affine`.
    BuiltColumns,
    /// Variables `?k`.
    NumberedVariables,
}

/// How terms and formulas are read at a place of a file.
pub trait Scope {
    ghost use Rattle.lc_text.specs.Names.{Names};

    ghost names: { Self → Names };

    /// The number of the free variable of this name, if there is one.
    fn variable(&self, name: &str) -> Option<u32>
        ensures { result ≡ (names self.now).variable name.now };

    /// What the column of this name stands for.
    fn column(&self, name: &str) -> ColumnUse
        ensures { result ≡ (names self.now).column name.now };

    /// Whether this is allowed here.
    fn allows(&self, extra: Extra) -> bool
        ensures { result ≡ (names self.now).allows extra };
}
