//! How near two names are: by how many letters that are changed, left out, added, or swapped with the next.

/// What is left of these bytes after the first `count`.
fn behind(bytes: &[u8], count: usize) -> &[u8] {
    bytes.get(count..).unwrap_or(&[])
}

/// How many bytes two texts begin with that are the same.
fn common(one: &[u8], other: &[u8]) -> usize {
    for (place, byte) in one.iter().enumerate() {
        if other.get(place) != Some(byte) {
            return place;
        }
    }
    one.len()
}

/// Whether two texts are the same but for one swap of their first two letters.
fn is_swap(one: &[u8], other: &[u8]) -> bool {
    1 < one.len()
        && one.first() == other.get(1)
        && one.get(1) == other.first()
        && behind(one, 2) == behind(other, 2)
}

/// Whether one letter at most makes the difference between two texts.
fn is_one_apart(one: &[u8], other: &[u8]) -> bool {
    let same = common(one, other);
    let (one, other) = (behind(one, same), behind(other, same));
    behind(one, 1) == behind(other, 1)
        || behind(one, 1) == other
        || one == behind(other, 1)
        || is_swap(one, other)
}

/// Whether two letters at most make the difference between two texts.
fn is_two_apart(one: &[u8], other: &[u8]) -> bool {
    let same = common(one, other);
    let (one, other) = (behind(one, same), behind(other, same));
    is_one_apart(behind(one, 1), behind(other, 1))
        || is_one_apart(behind(one, 1), other)
        || is_one_apart(one, behind(other, 1))
}

/// How many letters make the difference between two names: 1, or 2 between names of four letters at least; nothing if they differ more,
/// or not at all, or a name has one letter.
pub(crate) fn distance(one: &str, other: &str) -> Option<usize> {
    let (one, other) = (one.as_bytes(), other.as_bytes());
    let least = one.len().min(other.len());
    if one == other {
        return None;
    }
    if 1 < least && is_one_apart(one, other) {
        return Some(1);
    }
    if 3 < least && is_two_apart(one, other) {
        return Some(2);
    }
    None
}
