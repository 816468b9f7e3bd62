//! A caller of lc_native.
ghost use Rattle.std.specs.Prelude.{[], List, IfOk, IsTrue};
ghost use Rattle.lc_history.specs.History.{Event, IsLinearizable};
ghost use Rattle.lc_native.specs.Stack.{stack_step};
ghost use Rattle.lc_seq.specs.TextStep.{start_of, text_step};
ghost use Rattle.lc_seq.specs.TextView.{specification_of};

use lc_base::OutOfMemory;
use lc_history::laws::shadowed;
use lc_native::NatStack;
use lc_seq::{Shadows, TextSpec};
use std::alloc::Global;

/// Whether `spec` is that of a stack: then each history that is linearizable by it is linearizable for a stack in Rust.
pub fn is_of_a_stack(alloc: Global, spec: &TextSpec) -> Result<bool, OutOfMemory>
    ensures { let S = specification_of spec.now in IfOk result (λ yes. IsTrue yes →
        (history : List Event) → IsLinearizable (text_step S.operations) (start_of S.columns) history → IsLinearizable stack_step [] history) }
{
    shadowed::<TextSpec, NatStack>();
    NatStack.fits(alloc, spec)
}
