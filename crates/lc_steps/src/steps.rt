//! What a step is.
use lc_base::{OpId, PointId};
use lc_machine::Client;
use lc_object::EdgeKind;
use lc_ride::Mark;

/// What a client does in a step: it calls an operation with numbers, it goes from a point by an edge, or its call returns.
#[derive(Drop)]
pub enum What {
    Invoked { operation: OpId, numbers: Vec<i64> },
    Moved { point: PointId, edge: EdgeKind },
    Returned(Vec<i64>),
}

/// A step: what the client does, the marks that are made, and where the client is then. What is stored is written to a draft.
pub struct Step {
    pub what: What,
    pub marks: Vec<Mark>,
    pub client: Client,
}

// Written out, so that dropping a step is one call.
impl Drop for Step {
    fn drop(self) {
        let Step {
            what: _,
            marks: _,
            client: _,
        } = self;
    }
}

impl Step {
    ghost use Rattle.std.specs.Prelude.{◌≡◌};

    /// Its parts.
    pub fn into_parts(self) -> (What, Vec<Mark>, Client)
        ensures what { result.0 ≡ self.what }
        ensures marks { result.1 ≡ self.marks }
        ensures client { result.2 ≡ self.client }
    {
        let Step {
            what,
            marks,
            client,
        } = self;
        (what, marks, client)
    }
}
