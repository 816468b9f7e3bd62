//! Where something was put in.
ghost use Rattle.std.specs.Prelude.{◌≡◌};
ghost use Rattle.lc_fill.specs.Gaps.{meant};

/// Items that were put in.
#[derive(Clone, Copy)]
pub(crate) struct Gap {
    /// The number in the file of the item before which they are.
    pub(crate) place: u64,
    /// How many they are.
    pub(crate) size: u64,
}

/// The item of a file that is meant by an item of what it is filled up to: by one that was put in, the item before which it is.
pub(crate) fn meant(gaps: &[Gap], item: u64) -> u64
    ensures { result ≡ meant gaps.now item }
{
    let mut left = item;
    for gap in gaps {
        let place = gap.place;
        let size = gap.size;
        if left < place {
            return left;
        }
        let within = left - place;
        if within < size {
            return place;
        }
        left -= size;
    }
    left
}
