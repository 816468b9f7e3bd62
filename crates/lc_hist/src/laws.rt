//! Laws of the definitions: functions without effect, whose contracts are the laws.
ghost use Rattle.std.specs.Prelude.{◌≡◌, ◌⊎◌, ℕ, List};
ghost use Rattle.lc_history.specs.History.{Event, Entry};
ghost use Rattle.lc_hist.specs.JsonHistories.{SaysHistory, IsWrongItem};
ghost use Rattle.lc_hist.specs.JsonRecorded.{SaysRecorded, IsWrongRecordedItem};
ghost use Rattle.lc_seq.specs.Specification.{Operation};

/// A JSON text says one history and one order, or one of its items is the first that is wrong; one of the two, and never both.
pub fn a_text_is_read_in_one_way()
    ensures said_or_wrong { (operations : List Operation) (bytes : List ℕ) →
        ((events : List Event) × (order : List Entry) × SaysHistory operations bytes events order) ⊎ ((item : ℕ) × IsWrongItem operations bytes item) }
    ensures one_history { (operations : List Operation) (bytes : List ℕ) (events said : List Event) (order entries : List Entry) →
        SaysHistory operations bytes events order → SaysHistory operations bytes said entries → (events ≡ said) × (order ≡ entries) }
    ensures one_item { (operations : List Operation) (bytes : List ℕ) (a b : ℕ) → IsWrongItem operations bytes a → IsWrongItem operations bytes b → a ≡ b }
    ensures not_both { (operations : List Operation) (bytes : List ℕ) (events : List Event) (order : List Entry) (item : ℕ) →
        SaysHistory operations bytes events order → IsWrongItem operations bytes item → ⊥ }
{}

/// The same for a JSON text of a recorded history, whose order may be left out; and a text that says a history with an order says these
/// as a recorded history.
pub fn a_recorded_text_is_read_in_one_way()
    ensures said_or_wrong { (operations : List Operation) (bytes : List ℕ) →
        ((events : List Event) × (order : List Entry) × SaysRecorded operations bytes events order) ⊎ ((item : ℕ) × IsWrongRecordedItem operations bytes item) }
    ensures one_history { (operations : List Operation) (bytes : List ℕ) (events said : List Event) (order entries : List Entry) →
        SaysRecorded operations bytes events order → SaysRecorded operations bytes said entries → (events ≡ said) × (order ≡ entries) }
    ensures one_item { (operations : List Operation) (bytes : List ℕ) (a b : ℕ) → IsWrongRecordedItem operations bytes a → IsWrongRecordedItem operations bytes b → a ≡ b }
    ensures not_both { (operations : List Operation) (bytes : List ℕ) (events : List Event) (order : List Entry) (item : ℕ) →
        SaysRecorded operations bytes events order → IsWrongRecordedItem operations bytes item → ⊥ }
    ensures with_order { (operations : List Operation) (bytes : List ℕ) (events : List Event) (order : List Entry) → SaysHistory operations bytes events order → SaysRecorded operations bytes events order }
{}
