//! What was needed before some facts were left out, of what is asked for still.
use crate::needs::Need;
use lc_base::OutOfMemory;
use std::alloc::Global;

/// What was needed, in the order of the conditions: none where a proof has to be sought again, since it used what was left out.
#[derive(Drop)]
pub(crate) struct Earlier {
    needs: Vec<Option<Need>>,
    next: usize,
}

/// The new numbers of these facts; none if one was left out.
fn renumbered(
    alloc: Global,
    used: &[usize],
    numbers: &[Option<usize>],
) -> Result<Option<Vec<usize>>, OutOfMemory> {
    let mut all = Vec::new(alloc);
    for fact in used {
        let Some(Some(number)) = numbers.get(*fact) else {
            return Ok(None);
        };
        all.push(*number)?;
    }
    Ok(Some(all))
}

/// What is still known of a need.
fn kept(
    alloc: Global,
    need: &Need,
    numbers: &[Option<usize>],
) -> Result<Option<Need>, OutOfMemory> {
    if !need.is_found {
        return Ok(None);
    }
    Ok(renumbered(alloc, &need.used, numbers)?.map(|used| Need {
        asked: None,
        is_found: true,
        used,
    }))
}

impl Earlier {
    /// Nothing is known.
    pub(crate) fn none(alloc: Global) -> Earlier {
        Earlier {
            needs: Vec::new(alloc),
            next: 0,
        }
    }

    /// What is known of these needs, where facts have these numbers now; none if they were left out.
    pub(crate) fn of(
        alloc: Global,
        needs: &[Need],
        numbers: &[Option<usize>],
    ) -> Result<Earlier, OutOfMemory> {
        let mut earlier = Earlier::none(alloc);
        for need in needs {
            let is_gone = match need.asked {
                Some(fact) => !matches!(numbers.get(fact), Some(Some(_))),
                None => false,
            };
            if !is_gone {
                earlier.needs.push(kept(alloc, need, numbers)?)?;
            }
        }
        Ok(earlier)
    }

    /// What is known of the next need, which asks for this fact.
    pub(crate) fn next(&mut self, asked: Option<usize>) -> Option<Need> {
        let known = self.needs.get_mut(self.next)?.take();
        self.next = self.next.saturating_add(1);
        let mut need = known?;
        need.asked = asked;
        Some(need)
    }
}
