//! What is known of each number, and of all of them. Each function is a law: it does nothing, and its contract is the law.
ghost use Rattle.lc_pool.specs.Known.{KnownIsProven};

use lc_cert::laws::entries_read_alone_are_read_whole;

/// A file in the frame of a certificate, each of whose pieces reads by itself as an entry whose proof derives the condition of its
/// number, is a certificate that proves all conditions of the development and nothing else.
pub fn known_entries_prove_the_development()
    ensures { KnownIsProven }
{
    entries_read_alone_are_read_whole();
}
