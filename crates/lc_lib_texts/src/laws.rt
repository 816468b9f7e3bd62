//! What holds of the library. Each function is a law: it does nothing, and its contract is the law.
ghost use Rattle.std.specs.Prelude.{◌≡◌, Some};
ghost use Rattle.lc_lib_texts.specs.Names.{lib_named, name_of};
ghost use Rattle.lc_lib_texts.specs.declared.library.Lib.{Lib};

/// The name of each object names it, so that no two have the same.
pub fn names_are_told_apart()
    ensures { (lib : Lib) → lib_named (name_of lib) ≡ Some lib }
{}
