//! Replies of calls.
ghost use Rattle.std.specs.Prelude.{◌≡◌, ◌↔◌, IsTrue};

/// Whether these are the same numbers.
pub(crate) fn same_numbers(a: &[i64], b: &[i64]) -> bool
    ensures { IsTrue result ↔ (a.now ≡ b.now) }
{
    a == b
}

/// Whether these are the numbers with which a call returned, if it did.
pub(crate) fn fits(returned: bool, numbers: &[i64], reply: &[i64]) -> bool
    ensures told { IsTrue result → IsTrue returned → numbers.now ≡ reply.now }
    ensures other { (IsTrue returned → numbers.now ≡ reply.now) → IsTrue result }
{
    if returned {
        same_numbers(numbers, reply)
    } else {
        true
    }
}
