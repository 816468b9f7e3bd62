//! The text of objects: how it is read, in one walk, as an object or its first refusal. The readings of its parts are
//! public by themselves, so that other files read the same forms.
#![tactic(auto)]

mod arrays;
mod body;
mod body_scope;
mod cells;
mod code_scope;
mod counts;
mod declared;
mod declared_names;
mod declaring;
mod file;
mod headed_lists;
mod instruction;
mod laws;
mod made;
mod point;
mod rows;
mod section_finding;
mod sections;
mod signatures;
mod tables;
mod words;

pub use arrays::{ArrayText, Arrays};
pub use body::{Bodies, BodyText, read_bodies, read_body};
pub use body_scope::InBody;
pub use code_scope::{CodeScope, Row};
pub use counts::read_count;
pub use declared::{Body, Call, Declared, Span};
pub use declared_names::{bodies_due, read_declarations};
pub use declaring::{Names, read_kth_name, read_names};
pub use file::{object_at, object_of};
pub use instruction::read_instruction;
pub use laws::{objects_are_read_or_refused, objects_read_are_sound};
pub use made::made_parts;
pub use point::{CodeAlone, Points, ReadsBeside};
pub use rows::{ReadsPlaced, read_lists, read_placed};
pub use section_finding::{
    behind_first, find_sections, first_text, items_in_first, next_form, within_first,
};
pub use sections::Sections;
pub use signatures::{Signature, Signatures, SpecificationText, read_specification};
pub use tables::{Tables, read_object_name, read_tables};
