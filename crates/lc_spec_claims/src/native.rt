//! Native objects, and the specifications that they follow.
ghost use Rattle.std.specs.Prelude.{◌≡◌, ◌↔◌, ◌∷◌, [], pos, true, FitsSigned, IfOk, IsTrue};
ghost use Rattle.std.specs.Int.{w64};
ghost use Rattle.lc_seq.specs.Applied.{IsApplied};
ghost use Rattle.lc_seq.specs.Sequential.{InOrder};
ghost use Rattle.lc_seq.specs.Shadows.{IsShadow};
ghost use Rattle.lc_seq.specs.TextView.{specification_of, text_state_of};
ghost use Rattle.lc_native.specs.Cells.{count_of, CellsFit};
ghost use Rattle.lc_native.specs.Counter.{counter_call, counter_step, counter_fits};
ghost use Rattle.lc_native.specs.Form.{form_of_specification};
ghost use Rattle.lc_native.specs.Lock.{lock_call, lock_numbers, lock_step};
ghost use Rattle.lc_native.specs.PoolStack.{pool_call, pool_choice, pool_numbers, pool_step};
ghost use Rattle.lc_native.specs.Queue.{queue_call, queue_form, queue_numbers, queue_of, queue_step, is_queue};
ghost use Rattle.lc_native.specs.Snapshot.{pair_of, snapshot_call, snapshot_numbers, snapshot_step};
ghost use Rattle.lc_native.specs.Stack.{stack_form};

use lc_base::OutOfMemory;
use lc_native::{
    CounterCall, LockCall, LockReply, NatCounter, NatLock, NatPoolStack, NatQueue, NatSnapshot,
    NatStack, Pair, PoolCall, PoolChoice, PoolReply, QueueCall, QueueReply, SnapshotCall,
    SnapshotReply,
};
use lc_seq::{SeqFault, SeqObject, Shadows, TextSpec, TextState};
use std::alloc::Global;
use std::collections::VecDeque;

/// A counter replies the number from before.
pub fn counting(
    alloc: Global,
    counter: &NatCounter,
    state: &mut i64,
    client: u32,
    call: &CounterCall,
    choice: &(),
) -> Result<Option<i64>, SeqFault>
    ensures { IsApplied (λ reply. reply ∷ []) (counter_step state.old client (counter_call call.now) InOrder) (counter_fits state.old client (counter_call call.now) InOrder) state.old state.new result }
{
    counter.apply(alloc, state, client, call, choice)
}

/// A lock is taken while nobody holds it, and given back by the client that does.
pub fn locking(
    alloc: Global,
    lock: &NatLock,
    state: &mut Option<u32>,
    client: u32,
    call: &LockCall,
    choice: &(),
) -> Result<Option<LockReply>, SeqFault>
    ensures { IsApplied lock_numbers (lock_step state.old client (lock_call call.now) InOrder) (Unit {0}) state.old state.new result }
{
    lock.apply(alloc, state, client, call, choice)
}

/// A queue takes numbers at its end, and gives its first.
pub fn queueing(
    alloc: Global,
    queue: &NatQueue,
    state: &mut VecDeque<i64>,
    client: u32,
    call: &QueueCall,
    choice: &(),
) -> Result<Option<QueueReply>, SeqFault>
    ensures { IsApplied queue_numbers (queue_step state.old.items client (queue_call call.now) InOrder) (Unit {0}) state.old.items state.new.items result }
{
    queue.apply(alloc, state, client, call, choice)
}

/// A pool stack pushes, or answers that it is full, by a choice.
pub fn pooling(
    alloc: Global,
    pool: &NatPoolStack,
    state: &mut Vec<i64>,
    client: u32,
    call: &PoolCall,
    choice: &PoolChoice,
) -> Result<Option<PoolReply>, SeqFault>
    ensures { IsApplied pool_numbers (pool_step state.old.items client (pool_call call.now) (pool_choice choice.now)) (Unit {0}) state.old.items state.new.items result }
{
    pool.apply(alloc, state, client, call, choice)
}

/// A snapshot stores one of its numbers, or replies both.
pub fn scanning(
    alloc: Global,
    snapshot: &NatSnapshot,
    state: &mut Pair,
    client: u32,
    call: &SnapshotCall,
    choice: &(),
) -> Result<Option<SnapshotReply>, SeqFault>
    ensures { IsApplied snapshot_numbers (snapshot_step (pair_of state.old) client (snapshot_call call.now) InOrder) (Unit {0}) (pair_of state.old) (pair_of state.new) result }
{
    snapshot.apply(alloc, state, client, call, choice)
}

/// A stack follows exactly the specifications of its form.
pub fn fitting_a_stack(
    alloc: Global,
    stack: &NatStack,
    spec: &TextSpec,
) -> Result<bool, OutOfMemory>
    ensures { IfOk result (λ answer. IsTrue answer ↔ (form_of_specification (specification_of spec.now) ≡ stack_form)) }
{
    stack.fits(alloc, spec)
}

/// A queue follows exactly the specifications of its form.
pub fn fitting_a_queue(
    alloc: Global,
    queue: &NatQueue,
    spec: &TextSpec,
) -> Result<bool, OutOfMemory>
    ensures { IfOk result (λ answer. IsTrue answer ↔ (form_of_specification (specification_of spec.now) ≡ queue_form)) }
{
    queue.fits(alloc, spec)
}

/// The queue that stands for a state of a specification has the numbers in its cells.
pub fn shadowing(
    alloc: Global,
    queue: &NatQueue,
    state: &TextState,
) -> Result<VecDeque<i64>, SeqFault>
    requires { is_queue (text_state_of state.now) ≡ true }
    ensures { let s = text_state_of state.now in
        IsShadow (FitsSigned w64 (s 0 (pos 0)) × FitsSigned w64 (s 1 (pos 0)) × CellsFit (s 2) (count_of (s 0 (pos 0))) (count_of (s 1 (pos 0)))) (λ own. own.items ≡ queue_of s) result }
{
    queue.shadow(alloc, state)
}
