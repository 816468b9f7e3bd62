//! The state of a native object after calls of the object that it follows.
use lc_seq::{SeqFault, SeqObject, Shadows};
use std::alloc::Global;

/// A client's call of an object, with a choice for it.
#[derive(Drop)]
pub(crate) struct Made<C, H> {
    pub(crate) client: u32,
    pub(crate) call: C,
    pub(crate) choice: H,
}

/// The state of an object that follows another, after these calls of the other; none if the other does
/// not answer each of them.
pub(crate) fn shadow_behind<A: SeqObject, B: Shadows<A>>(
    alloc: Global,
    shadow: &B,
    object: &A,
    calls: &[Made<A::Call, A::Choice>],
) -> Result<Option<B::State>, SeqFault>
    requires { B.Follows shadow.now object.now }
{
    let mut state = object.initial(alloc)?;
    for made in calls {
        let reply = object.apply(alloc, &mut state, made.client, &made.call, &made.choice)?;
        if reply.is_none() {
            return Ok(None);
        }
    }
    let own = shadow.shadow(alloc, &state)?;
    Ok(Some(own))
}
