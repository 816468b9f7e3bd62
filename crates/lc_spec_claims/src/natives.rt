//! Native objects, as objects for which an order is searched.
ghost use Rattle.std.specs.Prelude.{◌≡◌, ℕ, ℤ, List, [], ◌∷◌, IfOk, IsTrue};
ghost use Rattle.lc_native.specs.Counter.{counter_call, counter_step};
ghost use Rattle.lc_native.specs.PoolStack.{pool_call, pool_choice, pool_step};
ghost use Rattle.lc_native.specs.Queue.{queue_call, queue_numbers, queue_step};
ghost use Rattle.lc_native.specs.Snapshot.{pair_of};
ghost use Rattle.lc_seq.specs.Sequential.{Choice, InOrder, Step};
ghost use Rattle.lc_order.specs.Listed.{IsListed};
ghost use Rattle.lc_order.specs.Reading.{OnlyReads};
ghost use Rattle.lc_order.specs.Steps.{IsStep, replied_by};

use lc_base::OutOfMemory;
use lc_native::{
    CounterCall, NatCounter, NatPoolStack, NatQueue, NatSnapshot, Pair, PoolCall, PoolChoice,
    QueueCall, QueueReply,
};
use lc_order::{EndUndo, Listed, Searchable, Stepped};
use lc_seq::SeqFault;
use std::alloc::Global;
use std::collections::VecDeque;

/// No step of a counter's call that is said to only read leads to another number.
pub fn reading_counter(counter: &NatCounter, call: &CounterCall) -> bool
    ensures { IsTrue result → OnlyReads counter_step (counter_call call.now) }
{
    counter.only_reads(call)
}

/// Snapshots that are said to be the same have the same numbers.
pub fn comparing_snapshots(snapshot: &NatSnapshot, a: &Pair, b: &Pair) -> bool
    ensures { IsTrue result → pair_of a.now ≡ pair_of b.now }
{
    snapshot.are_same(a, b)
}

/// If choices of a stack that may answer full are said to be all, each step of the call is taken under one of them.
pub fn listing_of_stack(
    alloc: Global,
    stack: &NatPoolStack,
    call: &PoolCall,
    returned: bool,
    reply: &[i64],
) -> Result<Listed<PoolChoice>, OutOfMemory>
    ensures { IfOk result (λ listed. IsTrue listed.all → (s : List ℤ) (client : ℕ) (choice : Choice) (t given : List ℤ) →
        Step pool_step s client (pool_call call.now) choice t given → (IsTrue returned → given ≡ reply.now) → IsListed pool_step pool_choice s client (pool_call call.now) t given listed.choices.items) }
{
    stack.choices(alloc, call, returned, reply)
}

/// A copy of a queue has its numbers.
pub fn copying_queue(
    alloc: Global,
    queue: &NatQueue,
    draft: &VecDeque<i64>,
) -> Result<VecDeque<i64>, OutOfMemory>
    ensures { IfOk result (λ copy. copy.items ≡ draft.now.items) }
{
    queue.copied(alloc, draft)
}

/// A step leads a queue to the numbers to which its call leads, with its reply.
pub fn stepping_queue(
    alloc: Global,
    queue: &NatQueue,
    draft: &mut VecDeque<i64>,
    client: u32,
    call: &QueueCall,
    choice: &(),
) -> Result<Option<Stepped<QueueReply, EndUndo>>, SeqFault>
    ensures { IsStep (replied_by queue_numbers) (queue_step draft.old.items client (queue_call call.now) InOrder) draft.old.items draft.new.items (Unit {0}) result }
{
    queue.step(alloc, draft, client, call, choice)
}
