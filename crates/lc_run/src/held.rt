//! What the lock of a runner holds, and the seats of its clients. Only the calls of this module change them.
ghost use Rattle.std.specs.Prelude.{◌≡◌, ◌+◌, ◌<◌, true, length};
ghost use Rattle.lc_base.specs.Limits.{seat_limit};
ghost use Rattle.lc_ride.specs.Drafts.{draft_columns};
ghost use Rattle.lc_term.specs.SystemColumns.{column_count};
ghost use Rattle.lc_machine.specs.Placed.{are_placed};
ghost use Rattle.lc_machine.specs.View.{clients_of};
ghost use Rattle.lc_outline.specs.Development.{first_system};
ghost use Rattle.lc_check.specs.VerdictView.{development_in};
ghost use Rattle.lc_run.specs.Held.{IsHeld};

use crate::fault::RunFault;
use crate::label::{Label, is_unfinished};
use crate::lawful::{begun_step, lawful_step, may_call, may_step};
use crate::starting::{idle_clients, start_draft};
use lc_base::{OpId, SEAT_LIMIT};
use lc_check::Accepted;
use lc_machine::Client;
use lc_outline::Development;
use lc_ride::Draft;
use lc_sound::laws::runs_stand_over;
use lc_steps::Step;
use std::alloc::Global;
use std::sync::Arc;
use std::sync::ledger::{Blank, Book, Ledger, Share};

/// What the lock holds: labels that are a run of the development, for `clients` clients, to the world that is held; and the
/// book of a ledger, whose total is the number of labels.
#[derive(Drop)]
pub struct Shared<J: Ledger> {
    alloc: Global,
    accepted: Arc<Accepted>,
    clients: u32,
    draft: Draft,
    stands: Vec<Client>,
    labels: Vec<Label>,
    book: Book<J>,
    rest: Share<J>,
    ghost run: { ∥ IsHeld accepted.value clients labels.items draft stands.items ∥₁ },
    ghost columns: { draft_columns draft ≡ column_count (first_system (development_in accepted.value)) },
    ghost placed: { are_placed (development_in accepted.value).object (clients_of stands.items) ≡ true },
    ghost count: { length stands.items ≡ clients },
    ghost total: { book.total ≡ length labels.items },
    ghost parts: { rest.parts + clients ≡ seat_limit },
    ghost amount: { rest.amount ≡ 0 },
}

/// A client's place, with the labels that it made, which its share counts.
#[derive(Drop)]
pub struct Seat<J: Ledger> {
    client: u32,
    labels: Vec<Label>,
    share: Share<J>,
    ghost few: { client < seat_limit },
    ghost part: { share.parts ≡ 1 },
    ghost amount: { share.amount ≡ length labels.items },
}

impl<J: Ledger> Seat<J> {
    ghost use Rattle.std.specs.Prelude.{◌≡◌, ◌<◌};
    ghost use Rattle.lc_base.specs.Limits.{seat_limit};
    ghost use Rattle.lc_run.specs.LabelView.{labels_of};
    ghost use Rattle.lc_run.specs.Locked.{client_in, labels_made};

    /// Whose place it is.
    pub fn client(&self) -> u32
        ensures client { result ≡ client_in self.now }
        ensures few { result < seat_limit }
    {
        self.client
    }

    /// The labels that the client made.
    pub fn labels(&self) -> &[Label]
        ensures { labels_of result.now ≡ labels_made self.now }
    {
        &self.labels
    }

    /// These labels alone, if the seat is no longer needed.
    pub(crate) fn into_labels(self) -> Vec<Label>
        ensures { labels_of result.items ≡ labels_made self }
    {
        let Seat {
            client: _,
            labels,
            share: _,
        } = self;
        labels
    }
}

impl<J: Ledger> Shared<J> {
    ghost use Rattle.std.specs.Prelude.{◌≡◌, ◌<◌, ◌⊎◌, ◌↔◌, ℕ, [], true, false, OnOk, OnErr, IfOk, IfErr, IfSome, IsErrOf, slice_get, vec_len};
    ghost use Rattle.std.specs.Arc.{arc_value};
    ghost use Rattle.lc_base.specs.Limits.{seat_limit};
    ghost use Rattle.lc_ride.specs.Drafts.{written_in_draft};
    ghost use Rattle.lc_machine.specs.Answered.{IsInCall};
    ghost use Rattle.lc_machine.specs.Placed.{is_placed};
    ghost use Rattle.lc_machine.specs.Step.{Invoked};
    ghost use Rattle.lc_machine.specs.View.{client_of};
    ghost use Rattle.lc_outline.specs.DevelopmentView.{development_view};
    ghost use Rattle.lc_ride.specs.RideView.{marks_of};
    ghost use Rattle.lc_sound.specs.Instrumented.{Instrumented};
    ghost use Rattle.lc_steps.specs.StepView.{what_of, GoesOn};
    ghost use Rattle.lc_steps.specs.Stepping.{world_with};
    ghost use Rattle.lc_check.specs.VerdictView.{development_in};
    ghost use Rattle.lc_run.specs.LabelView.{labels_of};
    ghost use Rattle.lc_run.specs.Labels.{is_unfinished};
    ghost use Rattle.lc_run.specs.Locked.{development_held, clients_held, labels_held, world_held, client_in, labels_made};
    ghost use Rattle.lc_run.specs.Taken.{HasGrown, HaveRoom, IsStepFault, IsBeginFault};

    /// Nothing has run yet. The seats are those of all clients, by their numbers.
    pub fn new(
        alloc: Global,
        blank: Blank,
        accepted: Arc<Accepted>,
        clients: u32,
    ) -> Result<(Shared<J>, Vec<Seat<J>>), RunFault>
        requires name { blank.name ≡ J.name }
        requires parts { (blank.parts ≡ J.parts) × (blank.parts ≡ seat_limit) }
        ensures clients { IsErrOf result RunFault.Clients ↔ ((clients ≡ 0) ⊎ (seat_limit < clients)) }
        ensures memory { IfErr result (λ e. (e ≡ RunFault.Clients) ⊎ (e ≡ RunFault.OutOfMemory)) }
        ensures labels { IfOk result (λ r. labels_held r.0 ≡ []) }
        ensures development { IfOk result (λ r. development_held r.0 ≡ development_in (arc_value accepted)) }
        ensures held { IfOk result (λ r. clients_held r.0 ≡ clients) }
        ensures count { IfOk result (λ r. vec_len r.1 ≡ clients) }
        ensures seats { IfOk result (λ r. (k : ℕ) → k < clients → IfSome (slice_get r.1.items k) (λ seat. (client_in seat ≡ k) × (labels_made seat ≡ []))) }
    {
        if clients == 0 || clients > SEAT_LIMIT {
            return Err(RunFault::Clients);
        }
        let (book, mut rest) = blank.open::<J>();
        let mut seats = Vec::with_capacity(alloc, clients as usize)?;
        for client in 0..clients {
            let share = rest.split_off(1, 0);
            let seat = Seat {
                client,
                labels: Vec::new(alloc),
                share,
            };
            seats.push_reserved(seat);
        }
        let draft = start_draft(alloc, &accepted)?;
        let stands = idle_clients(alloc, clients)?;
        let labels = Vec::new(alloc);
        let shared = Shared {
            alloc,
            accepted,
            clients,
            draft,
            stands,
            labels,
            book,
            rest,
        };
        Ok((shared, seats))
    }

    /// The labels.
    pub fn labels(&self) -> &[Label]
        ensures { labels_of result.now ≡ labels_held self.now }
    {
        &self.labels
    }

    /// The development.
    pub fn development(&self) -> &Development
        ensures { development_view result.now ≡ development_held self.now }
    {
        self.accepted.development()
    }

    /// How many clients there are.
    pub fn clients(&self) -> u32
        ensures { result ≡ clients_held self.now }
    {
        self.clients
    }

    /// The labels alone, if nothing more is to run.
    pub(crate) fn into_labels(self) -> Vec<Label>
        ensures { labels_of result.items ≡ labels_held self }
    {
        let Shared {
            alloc: _,
            accepted: _,
            clients: _,
            draft: _,
            stands: _,
            labels,
            book: _,
            rest: _,
        } = self;
        labels
    }

    // Keeps a step that was computed: the labels and the seat's list grow by its label, and the world becomes the next one.
    // What may fail comes before the first change.
    fn keep(&mut self, seat: &mut Seat<J>, step: Step) -> Result<(), RunFault>
        requires step { Instrumented (development_held self.old) (world_held self.old) (client_in seat.old) (what_of step.what) (marks_of step.marks.items)
            (world_with (world_held self.old) (written_in_draft self.old.draft) (client_in seat.old) (client_of step.client)) }
        requires placed { is_placed (development_held self.old).object (client_of step.client) ≡ true }
        requires there { client_in seat.old < clients_held self.old }
        ensures grown { OnOk result (HasGrown (λ what. what ≡ what_of step.what) self.old self.new seat.old seat.new) }
        ensures memory { IfErr result (λ e. e ≡ RunFault.OutOfMemory) }
        ensures labels { OnErr result (labels_held self.new ≡ labels_held self.old) }
        ensures world { OnErr result (world_held self.new ≡ world_held self.old) }
        ensures made { OnErr result (labels_made seat.new ≡ labels_made seat.old) }
        ensures development { development_held self.new ≡ development_held self.old }
        ensures clients { clients_held self.new ≡ clients_held self.old }
        ensures same { client_in seat.new ≡ client_in seat.old }
    {
        let (what, marks, client) = step.into_parts();
        let label = Label {
            client: seat.client,
            what,
            marks,
        };
        runs_stand_over();
        let copy = label.try_clone(self.alloc)?;
        self.labels.reserve(1)?;
        seat.labels.reserve(1)?;
        self.draft.save();
        self.stands[seat.client as usize] = client;
        self.labels.push_reserved(label);
        seat.labels.push_reserved(copy);
        self.book.add(&mut seat.share, 1);
        Ok(())
    }

    // The next step of the seat's client, computed and not kept; or why it takes none.
    fn told(&mut self, seat: &Seat<J>) -> Result<Step, RunFault>
        ensures step { IfOk result (λ step. Instrumented (development_held self.old) (world_held self.old) (client_in seat.now) (what_of step.what) (marks_of step.marks.items)
            (world_with (world_held self.old) (written_in_draft self.new.draft) (client_in seat.now) (client_of step.client))) }
        ensures kind { IfOk result (λ step. GoesOn (what_of step.what)) }
        ensures placed { IfOk result (λ step. is_placed (development_held self.old).object (client_of step.client) ≡ true) }
        ensures call { IfOk result (λ _. IsInCall (world_held self.old) (client_in seat.now)) }
        ensures there { IfOk result (λ _. client_in seat.now < clients_held self.old) }
        ensures room { IfOk result (λ _. HaveRoom (labels_held self.old)) }
        ensures idle { IsErrOf result RunFault.Idle ↔ (is_unfinished (labels_made seat.now) ≡ false) }
        ensures fault { IfErr result (IsStepFault (development_held self.old) (world_held self.old) (labels_held self.old) (client_in seat.now) (labels_made seat.now)) }
        ensures labels { labels_held self.new ≡ labels_held self.old }
        ensures world { world_held self.new ≡ world_held self.old }
        ensures development { development_held self.new ≡ development_held self.old }
        ensures clients { clients_held self.new ≡ clients_held self.old }
    {
        if !is_unfinished(&seat.labels) {
            return Err(RunFault::Idle);
        }
        may_step(&self.stands, seat.client, self.labels.len())?;
        lawful_step(
            self.alloc,
            &self.accepted,
            self.clients,
            &self.labels,
            &mut self.draft,
            &self.stands,
            seat.client,
        )
    }

    /// One instruction, or one return, of the seat's client.
    pub fn take_step(&mut self, seat: &mut Seat<J>) -> Result<(), RunFault>
        ensures grown { OnOk result (HasGrown GoesOn self.old self.new seat.old seat.new) }
        ensures room { OnOk result (HaveRoom (labels_held self.old)) }
        ensures idle { IsErrOf result RunFault.Idle ↔ (is_unfinished (labels_made seat.old) ≡ false) }
        ensures fault { IfErr result (IsStepFault (development_held self.old) (world_held self.old) (labels_held self.old) (client_in seat.old) (labels_made seat.old)) }
        ensures labels { OnErr result (labels_held self.new ≡ labels_held self.old) }
        ensures world { OnErr result (world_held self.new ≡ world_held self.old) }
        ensures made { OnErr result (labels_made seat.new ≡ labels_made seat.old) }
        ensures development { development_held self.new ≡ development_held self.old }
        ensures clients { clients_held self.new ≡ clients_held self.old }
        ensures same { client_in seat.new ≡ client_in seat.old }
    {
        let step = self.told(seat)?;
        self.keep(seat, step)
    }

    /// Why the seat's client takes no step, if there is no memory for its reply: `OutOfMemory` is the last of the faults.
    pub(crate) fn fault_without_memory(&mut self, seat: &Seat<J>) -> RunFault
        ensures idle { (result ≡ RunFault.Idle) ↔ (is_unfinished (labels_made seat.now) ≡ false) }
        ensures fault { IsStepFault (development_held self.old) (world_held self.old) (labels_held self.old) (client_in seat.now) (labels_made seat.now) result }
        ensures labels { labels_held self.new ≡ labels_held self.old }
        ensures world { world_held self.new ≡ world_held self.old }
        ensures development { development_held self.new ≡ development_held self.old }
        ensures clients { clients_held self.new ≡ clients_held self.old }
    {
        match self.told(seat) {
            Ok(_) => RunFault::OutOfMemory,
            Err(fault) => fault,
        }
    }

    /// The seat's client begins a call of an operation with these numbers.
    pub fn take_begin(
        &mut self,
        seat: &mut Seat<J>,
        operation: OpId,
        numbers: &[i64],
    ) -> Result<(), RunFault>
        ensures grown { OnOk result (HasGrown (λ what. what ≡ Invoked operation.0 numbers.now) self.old self.new seat.old seat.new) }
        ensures room { OnOk result (HaveRoom (labels_held self.old)) }
        ensures busy { IsErrOf result RunFault.Busy ↔ (is_unfinished (labels_made seat.old) ≡ true) }
        ensures fault { IfErr result (IsBeginFault (development_held self.old) (world_held self.old) (labels_held self.old) (client_in seat.old) (labels_made seat.old) operation.0 numbers.now) }
        ensures labels { OnErr result (labels_held self.new ≡ labels_held self.old) }
        ensures world { OnErr result (world_held self.new ≡ world_held self.old) }
        ensures made { OnErr result (labels_made seat.new ≡ labels_made seat.old) }
        ensures development { development_held self.new ≡ development_held self.old }
        ensures clients { clients_held self.new ≡ clients_held self.old }
        ensures same { client_in seat.new ≡ client_in seat.old }
    {
        if is_unfinished(&seat.labels) {
            return Err(RunFault::Busy);
        }
        may_call(
            self.accepted.development(),
            &self.stands,
            seat.client,
            operation,
            numbers,
            self.labels.len(),
        )?;
        let step = begun_step(
            self.alloc,
            &self.accepted,
            &mut self.draft,
            &self.stands,
            seat.client,
            operation,
            numbers,
        )?;
        self.keep(seat, step)
    }
}
