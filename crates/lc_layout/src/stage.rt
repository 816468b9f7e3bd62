/// How far a list is laid out.
#[derive(Clone, Copy)]
pub(crate) enum Stage {
    /// The list is on one line, and no item of it is there yet.
    Lead,
    /// The list is on one line, and some items of it are there.
    Flat,
    /// The list is broken over lines, and no item of it is there yet.
    Fresh,
    /// The last item on the line of the bracket is the head, an atom, or a list of atoms.
    Head,
    /// The last item on the line of the bracket is an atom after the head.
    Named,
    /// Each further item is on a line of its own.
    Below,
}

/// What comes before an item.
#[derive(Clone, Copy)]
pub(crate) enum Gap {
    Nothing,
    Space,
    /// A line feed, and the indentation of the list's items.
    Line,
}

/// Where an item of a list is put.
#[derive(Clone, Copy)]
pub(crate) struct Spot {
    pub(crate) gap: Gap,
    /// The column of its first byte, from 0.
    pub(crate) column: usize,
    /// How far the list is laid out with it.
    pub(crate) stage: Stage,
    /// The column after it, where a further item may be on its line.
    pub(crate) behind: usize,
}
