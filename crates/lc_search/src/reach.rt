//! How far the search looks for instances.

/// How deep instances are nested in each other at most.
const MOST_NESTED: i32 = 12;

/// How far the search looks for instances of quantified facts.
#[derive(Clone, Copy)]
pub(crate) struct Reach {
    /// How deep they may be nested in each other.
    pub(crate) nested: i32,
    /// Whether also terms are put in that solve a comparison in the body. They come late, since they lead away from what the other
    /// terms find.
    pub(crate) is_late: bool,
}

impl Reach {
    /// The nearest.
    pub(crate) fn first() -> Reach {
        Reach {
            nested: 1,
            is_late: false,
        }
    }

    /// The next one, if there is one.
    pub(crate) fn next(self) -> Option<Reach> {
        if self.nested < MOST_NESTED {
            return Some(Reach {
                nested: self.nested.saturating_add(1),
                is_late: self.is_late,
            });
        }
        if self.is_late {
            return None;
        }
        Some(Reach {
            nested: 1,
            is_late: true,
        })
    }
}
