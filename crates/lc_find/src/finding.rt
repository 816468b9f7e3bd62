//! Certificates are found: each proof is checked before it is taken, and the text of all of them before it is given.
ghost use Rattle.std.specs.Prelude.{◌++◌};
ghost use Rattle.lc_outline.specs.DevelopmentView.{development_view};
ghost use Rattle.lc_cert.specs.Certificates.{HaveFewSteps};
ghost use Rattle.lc_cert.specs.EntryView.{entries_of};
ghost use Rattle.lc_find.specs.Found.{AreFound, Finds};
ghost use Rattle.lc_hints.specs.HintView.{proofs_in};

use crate::candidates::Candidates;
use crate::fault::FindFault;
use crate::progress::{Progress, Silent};
use crate::reading_back::read_back;
use crate::taking::next_entry;
use lc_cert::laws::printed_certificates_read_back;
use lc_cert::{Certificate, Entry};
use lc_check::Walk;
use lc_hints::Hints;
use lc_outline::Development;
use std::alloc::Global;

/// Proofs of all conditions, in turn.
fn found_entries<P: Progress>(
    alloc: Global,
    development: &Development,
    given: &[Entry],
    hints: &Hints,
    budget: u64,
    progress: &mut P,
) -> Result<Vec<Entry>, FindFault>
    requires { HaveFewSteps (entries_of given.now) }
    ensures { AreFound (development_view development.now) (entries_of given.now ++ proofs_in hints.now) budget result }
{
    let first = Candidates::new(alloc, given, hints.proofs())?;
    let mut walk = Walk::new(alloc, development)?;
    let mut entries = Vec::new(alloc);
    'conditions: loop {
        if !walk.advance(alloc, development)? {
            return Ok(entries);
        }
        progress.reached(walk.next);
        let entry = match next_entry(
            alloc,
            development,
            &mut walk,
            &first,
            hints,
            budget,
            progress,
        ) {
            Ok(entry) => entry,
            Err(fault) => return Err(fault),
        };
        entries.push(entry)?;
    }
}

/// Finds a certificate of a development. Each condition gets the first proof that the hints have for it, if that holds; for
/// the others a proof is sought, in at most `budget` steps each.
///
/// `certificate_text` of what is found is accepted by `check`, with any text of the development. If no certificate is
/// found, the fault names the first condition without a proof. `Budget` is also reported of a condition whose proof makes the
/// text too large or too deep. If the first hint of each condition holds and the text is within the limits of a file, no
/// fault is reported but `OutOfMemory`. With budget 0 nothing is sought.
pub fn find(
    alloc: Global,
    development: &Development,
    hints: &Hints,
    budget: u64,
) -> Result<Certificate, FindFault>
    ensures { Finds (development_view development.now) (proofs_in hints.now) budget result }
{
    find_with(alloc, development, hints, budget, &mut Silent)
}

/// As `find`, and says how far it is: the number of each condition, before a proof of it is looked for.
pub fn find_with<P: Progress>(
    alloc: Global,
    development: &Development,
    hints: &Hints,
    budget: u64,
    progress: &mut P,
) -> Result<Certificate, FindFault>
    ensures { Finds (development_view development.now) (proofs_in hints.now) budget result }
{
    find_beside(alloc, development, &[], hints, budget, progress)
}

/// As `find_with`, with some proofs given beside the hints; they come before those of the hints.
pub(crate) fn find_beside<P: Progress>(
    alloc: Global,
    development: &Development,
    given: &[Entry],
    hints: &Hints,
    budget: u64,
    progress: &mut P,
) -> Result<Certificate, FindFault>
    requires { HaveFewSteps (entries_of given.now) }
    ensures { Finds (development_view development.now) (entries_of given.now ++ proofs_in hints.now) budget result }
{
    let entries = found_entries(alloc, development, given, hints, budget, progress)?;
    printed_certificates_read_back();
    read_back(alloc, development, entries)
}
