//! What a development file declares.
ghost use Rattle.std.specs.Prelude.{◌≡◌, map};
ghost use Rattle.lc_sexp.specs.Shown.{rest_of};
ghost use Rattle.lc_object_text.specs.ObjectNames.{first_text};
ghost use Rattle.lc_reading.specs.TableView.{listed};
ghost use Rattle.lc_rider_text.specs.KnownView.{ways_view};
ghost use Rattle.lc_outline_text.specs.Declarations.{parameter_count, ways_in, choices_in};
ghost use Rattle.lc_outline_text.specs.Rests.{lists_of_rests, same_once};

use lc_object_text::Declared;
use lc_reading::NameTable;
use lc_rider_text::Ways;
use lc_sexp::Cursor;

/// What a development file declares: the names that the code of its object sees, and the actions.
pub(crate) struct Declarations<'a> {
    pub(crate) declared: Declared<'a>,
    pub(crate) action_names: NameTable<'a>,
    /// What comes after the word of each action.
    pub(crate) actions: Vec<Cursor<'a>>,
    /// How many parameters each action has.
    pub(crate) parameters: Vec<u64>,
    /// What comes after the word of each operation.
    pub(crate) operations: Vec<Cursor<'a>>,
    /// How each operation goes.
    pub(crate) ways: Vec<Ways<'a>>,
    /// What comes after the word of each choice of each operation.
    pub(crate) choices: Vec<Vec<Cursor<'a>>>,
    ghost named: { listed action_names ≡ map first_text (map rest_of actions.items) },
    ghost parameters_counted: { parameters.items ≡ map parameter_count (map rest_of actions.items) },
    ghost ways_counted: { map ways_view ways.items ≡ map ways_in (map rest_of operations.items) },
    ghost choices_found: { lists_of_rests choices.items ≡ map choices_in (map rest_of operations.items) } by { same_once (lists_of_rests choices.items) (map choices_in (map rest_of operations.items)) },
}

impl Drop for Declarations<'_> {
    fn drop(self) {
        let Declarations {
            declared: _,
            action_names: _,
            actions: _,
            parameters: _,
            operations: _,
            ways: _,
            choices: _,
        } = self;
    }
}
