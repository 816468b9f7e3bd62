//! The names that no file declares.
ghost use Rattle.std.specs.Prelude.{◌≡◌};
ghost use Rattle.lc_reading.specs.Reserved.{is_client_name, is_call_column, is_reply_column, is_note_column, is_system_column, is_action_name, is_reserved};

/// Whether this is the name of a column of a client's call, of its replies or of its note, which each object has. The length
/// is looked at first, so that most names are compared with few texts or with none.
#[tactic(auto, using(crate::proofs::Words::is_other_length), unfolding(crate::specs::Reserved::is_call_column, crate::specs::Reserved::is_reply_column, crate::specs::Reserved::is_note_column))]
pub fn is_system_column(name: &str) -> bool
    ensures { result ≡ is_system_column name.now }
{
    match name.len() {
        2 => name == "op",
        4 => matches!(
            name,
            "pend" | "arg1" | "arg2" | "arg3" | "rep1" | "rep2" | "rep3"
        ),
        5 => matches!(name, "noted" | "note1" | "note2" | "note3"),
        _ => false,
    }
}

/// Whether no file may declare this name: `self`, `N`, the system columns and the built-in actions.
#[tactic(auto, using(crate::proofs::Words::is_other_length), unfolding(crate::specs::Reserved::is_client_name, crate::specs::Reserved::is_call_column, crate::specs::Reserved::is_reply_column, crate::specs::Reserved::is_note_column, crate::specs::Reserved::is_action_name))]
pub fn is_reserved(name: &str) -> bool
    ensures { result ≡ is_reserved name.now }
{
    match name.len() {
        1 => name == "N",
        4 => matches!(name, "self" | "skip") || is_system_column(name),
        5 => matches!(name, "enter" | "leave") || is_system_column(name),
        _ => is_system_column(name),
    }
}
