//! Native objects as objects for which an order is searched.
ghost use Rattle.std.specs.Prelude.{◌≡◌, ◌↔◌, Some, IsTrue, IfOk, slice_get};
ghost use Rattle.lc_native.specs.declared.pool_stack.PoolChoice.TheVariants.{Put, Full};

use crate::replies::same_numbers;
use crate::searchable::{Listed, Searchable, Stepped};
use lc_base::OutOfMemory;
use lc_native::{
    CounterCall, LockCall, LockReply, NatCounter, NatLock, NatPoolStack, NatQueue, NatSnapshot,
    NatStack, Pair, PoolCall, PoolChoice, PoolReply, QueueCall, QueueReply, SnapshotCall,
    SnapshotReply, StackCall, StackReply,
};
use lc_seq::{SeqFault, SeqObject};
use std::alloc::Global;
use std::collections::VecDeque;

/// How a step is taken back that puts a number at an end of a list, or takes one from there.
#[derive(Clone, Copy)]
pub enum EndUndo {
    /// It changed nothing.
    Keep,
    /// The number that it put is taken away.
    TakeAway,
    /// The number that it took is put back.
    PutBack(i64),
}

// The choice of an object that has one.
fn only_choice(alloc: Global) -> Result<Listed<()>, OutOfMemory>
    ensures { IfOk result (λ listed. slice_get listed.choices.items 0 ≡ Some tt) }
{
    let mut choices = Vec::new(alloc);
    choices.push(())?;
    Ok(Listed { choices, all: true })
}

// The choices of a stack that may answer full.
fn both_choices(alloc: Global) -> Result<Listed<PoolChoice>, OutOfMemory>
    ensures put { IfOk result (λ listed. slice_get listed.choices.items 0 ≡ Some Put) }
    ensures full { IfOk result (λ listed. slice_get listed.choices.items 1 ≡ Some Full) }
{
    let mut choices = Vec::new(alloc);
    choices.push(PoolChoice::Put)?;
    choices.push(PoolChoice::Full)?;
    Ok(Listed { choices, all: true })
}

// A digest with one more number.
fn mixed(digest: u64, number: i64) -> u64 {
    (digest.rotate_left(5) ^ number.unsigned_abs()).wrapping_mul(0x9E37_79B9_7F4A_7C15)
}

// A digest with more numbers.
fn mixed_all(digest: u64, numbers: &[i64]) -> u64 {
    let mut mix = digest;
    for number in numbers {
        mix = mixed(mix, *number);
    }
    mix
}

impl Searchable for NatCounter {
    type Draft = i64;

    type Undo = i64;

    ghost stands_for = { λ draft. draft };

    ghost HasDraft = { λ _ _. Unit {0} };

    fn begin(&self, alloc: Global) -> Result<i64, OutOfMemory> {
        self.initial(alloc)
    }

    fn copied(&self, _alloc: Global, draft: &i64) -> Result<i64, OutOfMemory> {
        Ok(*draft)
    }

    fn step(
        &self,
        alloc: Global,
        draft: &mut i64,
        client: u32,
        call: &CounterCall,
        choice: &(),
    ) -> Result<Option<Stepped<i64, i64>>, SeqFault> {
        let undo = *draft;
        match self.apply(alloc, draft, client, call, choice)? {
            Some(reply) => Ok(Some(Stepped { reply, undo })),
            None => Ok(None),
        }
    }

    fn take_back(&self, _alloc: Global, draft: &mut i64, undo: i64) -> Result<(), OutOfMemory> {
        *draft = undo;
        Ok(())
    }

    fn are_same(&self, a: &i64, b: &i64) -> bool {
        *a == *b
    }

    fn digest(&self, draft: &i64) -> u64 {
        mixed(0, *draft)
    }

    fn size(&self, _draft: &i64) -> usize {
        16
    }

    fn choices(
        &self,
        alloc: Global,
        _call: &CounterCall,
        _returned: bool,
        _reply: &[i64],
    ) -> Result<Listed<()>, OutOfMemory> {
        only_choice(alloc)
    }

    fn only_reads(&self, call: &CounterCall) -> bool {
        match call {
            CounterCall::Inc => false,
            CounterCall::Get => true,
        }
    }
}

impl Searchable for NatLock {
    type Draft = Option<u32>;

    type Undo = Option<u32>;

    ghost stands_for = { λ draft. draft };

    ghost HasDraft = { λ _ _. Unit {0} };

    fn begin(&self, alloc: Global) -> Result<Option<u32>, OutOfMemory> {
        self.initial(alloc)
    }

    fn copied(&self, _alloc: Global, draft: &Option<u32>) -> Result<Option<u32>, OutOfMemory> {
        Ok(*draft)
    }

    fn step(
        &self,
        alloc: Global,
        draft: &mut Option<u32>,
        client: u32,
        call: &LockCall,
        choice: &(),
    ) -> Result<Option<Stepped<LockReply, Option<u32>>>, SeqFault> {
        let undo = *draft;
        match self.apply(alloc, draft, client, call, choice)? {
            Some(reply) => Ok(Some(Stepped { reply, undo })),
            None => Ok(None),
        }
    }

    fn take_back(
        &self,
        _alloc: Global,
        draft: &mut Option<u32>,
        undo: Option<u32>,
    ) -> Result<(), OutOfMemory> {
        *draft = undo;
        Ok(())
    }

    fn are_same(&self, a: &Option<u32>, b: &Option<u32>) -> bool {
        *a == *b
    }

    fn digest(&self, draft: &Option<u32>) -> u64 {
        draft.map_or(0, |holder| mixed(1, i64::from(holder)))
    }

    fn size(&self, _draft: &Option<u32>) -> usize {
        16
    }

    fn choices(
        &self,
        alloc: Global,
        _call: &LockCall,
        _returned: bool,
        _reply: &[i64],
    ) -> Result<Listed<()>, OutOfMemory> {
        only_choice(alloc)
    }

    fn only_reads(&self, _call: &LockCall) -> bool {
        false
    }
}

impl Searchable for NatSnapshot {
    type Draft = Pair;

    type Undo = Pair;

    ghost stands_for = { λ draft. draft };

    ghost HasDraft = { λ _ _. Unit {0} };

    fn begin(&self, alloc: Global) -> Result<Pair, OutOfMemory> {
        self.initial(alloc)
    }

    fn copied(&self, _alloc: Global, draft: &Pair) -> Result<Pair, OutOfMemory> {
        Ok(*draft)
    }

    fn step(
        &self,
        alloc: Global,
        draft: &mut Pair,
        client: u32,
        call: &SnapshotCall,
        choice: &(),
    ) -> Result<Option<Stepped<SnapshotReply, Pair>>, SeqFault> {
        let undo = *draft;
        match self.apply(alloc, draft, client, call, choice)? {
            Some(reply) => Ok(Some(Stepped { reply, undo })),
            None => Ok(None),
        }
    }

    fn take_back(&self, _alloc: Global, draft: &mut Pair, undo: Pair) -> Result<(), OutOfMemory> {
        *draft = undo;
        Ok(())
    }

    fn are_same(&self, a: &Pair, b: &Pair) -> bool {
        a.a == b.a && a.b == b.b
    }

    fn digest(&self, draft: &Pair) -> u64 {
        mixed(mixed(0, draft.a), draft.b)
    }

    fn size(&self, _draft: &Pair) -> usize {
        16
    }

    fn choices(
        &self,
        alloc: Global,
        _call: &SnapshotCall,
        _returned: bool,
        _reply: &[i64],
    ) -> Result<Listed<()>, OutOfMemory> {
        only_choice(alloc)
    }

    fn only_reads(&self, call: &SnapshotCall) -> bool {
        match call {
            SnapshotCall::WriteA(_) | SnapshotCall::WriteB(_) => false,
            SnapshotCall::Scan => true,
        }
    }
}

impl Searchable for NatStack {
    type Draft = Vec<i64>;

    type Undo = EndUndo;

    ghost stands_for = { λ draft. draft };

    ghost HasDraft = { λ _ _. Unit {0} };

    fn begin(&self, alloc: Global) -> Result<Vec<i64>, OutOfMemory> {
        self.initial(alloc)
    }

    fn copied(&self, alloc: Global, draft: &Vec<i64>) -> Result<Vec<i64>, OutOfMemory> {
        Ok(Vec::from_slice(alloc, draft)?)
    }

    fn step(
        &self,
        alloc: Global,
        draft: &mut Vec<i64>,
        client: u32,
        call: &StackCall,
        choice: &(),
    ) -> Result<Option<Stepped<StackReply, EndUndo>>, SeqFault> {
        let Some(reply) = self.apply(alloc, draft, client, call, choice)? else {
            return Ok(None);
        };
        let undo = match reply {
            StackReply::Pushed => EndUndo::TakeAway,
            StackReply::Popped(number) => EndUndo::PutBack(number),
            StackReply::Empty => EndUndo::Keep,
        };
        Ok(Some(Stepped { reply, undo }))
    }

    fn take_back(
        &self,
        _alloc: Global,
        draft: &mut Vec<i64>,
        undo: EndUndo,
    ) -> Result<(), OutOfMemory> {
        match undo {
            EndUndo::Keep => {}
            EndUndo::TakeAway => {
                let _ = draft.pop();
            }
            EndUndo::PutBack(number) => draft.push(number)?,
        }
        Ok(())
    }

    fn are_same(&self, a: &Vec<i64>, b: &Vec<i64>) -> bool {
        same_numbers(a, b)
    }

    fn digest(&self, draft: &Vec<i64>) -> u64 {
        mixed_all(0, draft)
    }

    fn size(&self, draft: &Vec<i64>) -> usize {
        draft.len().saturating_mul(8).saturating_add(32)
    }

    fn choices(
        &self,
        alloc: Global,
        _call: &StackCall,
        _returned: bool,
        _reply: &[i64],
    ) -> Result<Listed<()>, OutOfMemory> {
        only_choice(alloc)
    }

    fn only_reads(&self, _call: &StackCall) -> bool {
        false
    }
}

impl Searchable for NatPoolStack {
    type Draft = Vec<i64>;

    type Undo = EndUndo;

    ghost stands_for = { λ draft. draft };

    ghost HasDraft = { λ _ _. Unit {0} };

    fn begin(&self, alloc: Global) -> Result<Vec<i64>, OutOfMemory> {
        self.initial(alloc)
    }

    fn copied(&self, alloc: Global, draft: &Vec<i64>) -> Result<Vec<i64>, OutOfMemory> {
        Ok(Vec::from_slice(alloc, draft)?)
    }

    fn step(
        &self,
        alloc: Global,
        draft: &mut Vec<i64>,
        client: u32,
        call: &PoolCall,
        choice: &PoolChoice,
    ) -> Result<Option<Stepped<PoolReply, EndUndo>>, SeqFault> {
        let Some(reply) = self.apply(alloc, draft, client, call, choice)? else {
            return Ok(None);
        };
        let undo = match reply {
            PoolReply::Pushed => EndUndo::TakeAway,
            PoolReply::Popped(number) => EndUndo::PutBack(number),
            PoolReply::Full | PoolReply::Empty => EndUndo::Keep,
        };
        Ok(Some(Stepped { reply, undo }))
    }

    fn take_back(
        &self,
        _alloc: Global,
        draft: &mut Vec<i64>,
        undo: EndUndo,
    ) -> Result<(), OutOfMemory> {
        match undo {
            EndUndo::Keep => {}
            EndUndo::TakeAway => {
                let _ = draft.pop();
            }
            EndUndo::PutBack(number) => draft.push(number)?,
        }
        Ok(())
    }

    fn are_same(&self, a: &Vec<i64>, b: &Vec<i64>) -> bool {
        same_numbers(a, b)
    }

    fn digest(&self, draft: &Vec<i64>) -> u64 {
        mixed_all(0, draft)
    }

    fn size(&self, draft: &Vec<i64>) -> usize {
        draft.len().saturating_mul(8).saturating_add(32)
    }

    fn choices(
        &self,
        alloc: Global,
        _call: &PoolCall,
        _returned: bool,
        _reply: &[i64],
    ) -> Result<Listed<PoolChoice>, OutOfMemory> {
        both_choices(alloc)
    }

    fn only_reads(&self, _call: &PoolCall) -> bool {
        false
    }
}

// The numbers of a queue again.
fn copied_deque(alloc: Global, numbers: &VecDeque<i64>) -> Result<VecDeque<i64>, OutOfMemory>
    ensures { IfOk result (λ copy. copy.items ≡ numbers.now.items) }
{
    let (first, second) = numbers.as_slices();
    let mut copy = Vec::from_slice(alloc, first)?;
    copy.extend_from_slice(second)?;
    Ok(VecDeque::from_vec(copy))
}

// Whether these are the same numbers.
fn are_same_deques(a: &VecDeque<i64>, b: &VecDeque<i64>) -> bool
    ensures { IsTrue result → a.now.items ≡ b.now.items }
{
    a == b
}

impl Searchable for NatQueue {
    type Draft = VecDeque<i64>;

    type Undo = EndUndo;

    ghost stands_for = { λ draft. draft };

    ghost HasDraft = { λ _ _. Unit {0} };

    fn begin(&self, alloc: Global) -> Result<VecDeque<i64>, OutOfMemory> {
        self.initial(alloc)
    }

    fn copied(&self, alloc: Global, draft: &VecDeque<i64>) -> Result<VecDeque<i64>, OutOfMemory> {
        copied_deque(alloc, draft)
    }

    fn step(
        &self,
        alloc: Global,
        draft: &mut VecDeque<i64>,
        client: u32,
        call: &QueueCall,
        choice: &(),
    ) -> Result<Option<Stepped<QueueReply, EndUndo>>, SeqFault> {
        let Some(reply) = self.apply(alloc, draft, client, call, choice)? else {
            return Ok(None);
        };
        let undo = match reply {
            QueueReply::Entered => EndUndo::TakeAway,
            QueueReply::Left(number) => EndUndo::PutBack(number),
            QueueReply::Empty => EndUndo::Keep,
        };
        Ok(Some(Stepped { reply, undo }))
    }

    fn take_back(
        &self,
        _alloc: Global,
        draft: &mut VecDeque<i64>,
        undo: EndUndo,
    ) -> Result<(), OutOfMemory> {
        match undo {
            EndUndo::Keep => {}
            EndUndo::TakeAway => {
                let _ = draft.pop_back();
            }
            EndUndo::PutBack(number) => draft.push_front(number)?,
        }
        Ok(())
    }

    fn are_same(&self, a: &VecDeque<i64>, b: &VecDeque<i64>) -> bool {
        are_same_deques(a, b)
    }

    fn digest(&self, draft: &VecDeque<i64>) -> u64 {
        let (first, second) = draft.as_slices();
        mixed_all(mixed_all(0, first), second)
    }

    fn size(&self, draft: &VecDeque<i64>) -> usize {
        draft.len().saturating_mul(8).saturating_add(32)
    }

    fn choices(
        &self,
        alloc: Global,
        _call: &QueueCall,
        _returned: bool,
        _reply: &[i64],
    ) -> Result<Listed<()>, OutOfMemory> {
        only_choice(alloc)
    }

    fn only_reads(&self, _call: &QueueCall) -> bool {
        false
    }
}
