//! What the names of an instruction stand for, as a trait.
ghost use Rattle.std.specs.Prelude.{◌≡◌, option_map};

use lc_base::PointId;
use lc_object::{ArrayId, LocalId};

/// An array as instructions see it.
#[derive(Clone, Copy)]
pub struct Row {
    pub array: ArrayId,
    /// How many columns it has.
    pub width: u64,
}

/// How the names of an instruction are read at its place, beside those of terms and columns.
pub trait CodeScope {
    ghost use Rattle.lc_object_text.specs.CodeNames.{CodeNames};

    ghost code: { Self → CodeNames };

    /// The array of this name, if there is one.
    fn array(&self, name: &str) -> Option<Row>
        ensures { option_map (λ row. (row.array.0, row.width)) result ≡ (code self.now).array name.now };

    /// The local of this name in the body, if there is one.
    fn target(&self, name: &str) -> Option<LocalId>
        ensures { option_map (λ local. local.0) result ≡ (code self.now).target name.now };

    /// The point of this name in the body, if there is one.
    fn label(&self, name: &str) -> Option<PointId>
        ensures { option_map (λ point. point.0) result ≡ (code self.now).label name.now };

    /// How many numbers the body's operation returns, if it is declared.
    fn replies(&self) -> Option<u64>
        ensures { result ≡ (code self.now).replies };
}
