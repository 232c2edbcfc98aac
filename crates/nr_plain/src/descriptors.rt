//! The steps that open, evict and close a descriptor and deliver events to it: Go's `poll_runtime_pollOpen`,
//! `poll_runtime_pollUnblock`, `poll_runtime_pollClose` and `netpollready`.

ghost use Rattle.std.specs.Prelude.{◌≡◌, ◌<◌, ◌∷◌, [], List, MatchOption, ℕ, OnOk, length};
ghost use Rattle.nr_rev.specs.declared.step.Step.TheVariants as steps;
ghost use Rattle.nr_rev.specs.Step as step;
ghost use Rattle.nr_rev.specs.WellFormed.{WellFormed};
ghost use Rattle.nr_plain.specs.Plan.{Plans};

use crate::change::{change_by_event, change_by_evict};
use crate::descriptor::{closed, never_opened, opened_for};
use crate::edit::Edit;
use crate::plan::Plan;
use crate::world::PlainWorld;
use nr_rev::{Answer, DescriptorRow, Mode, Refusal, Side, Sides};

impl PlainWorld {
    /// Returns the plan of `pollopen`.
    #[tactic(auto, using(crate::proofs::OpenLemmas::pushed_here))]
    pub(crate) fn pollopen<'a>(&self, goroutine: u32, socket: u32) -> Result<Plan<'a>, Refusal>
        ensures { Plans (steps.PollOpen goroutine socket) self.now result }
    {
        self.idle(goroutine)?;
        let _opened = self.socket_of(socket)?;
        if let Some(descriptor) = self.front_free() {
            let row = self.row_in(descriptor)?;
            let row = DescriptorRow {
                descriptor: opened_for(socket, row.descriptor)?,
                ..row
            };
            return Ok(
                Plan::new(Answer::Number(descriptor))
                    .then(Edit::TakeFree)
                    .then(Edit::Row { descriptor, row }),
            );
        }
        let made = self.descriptors.len();
        if made >= self.limits.descriptors as usize {
            return Err(Refusal::TableFull);
        }
        let descriptor = made as u32;
        let row = DescriptorRow {
            descriptor: opened_for(socket, never_opened())?,
            timers: Sides::twice(None),
        };
        Ok(
            Plan::new(Answer::Number(descriptor))
                .then(Edit::AddRow)
                .then(Edit::Row { descriptor, row }),
        )
    }

    /// Returns the first number in the free list, if any.
    #[tactic(auto, using(crate::proofs::OpenLemmas::front_or_none))]
    fn front_free(&self) -> Option<u32>
        ensures { MatchOption result (self.now.free ≡ [])
            (λ d. (rest : List ℕ) × (self.now.free ≡ d ∷ rest)) }
    {
        self.free.get(0)
    }

    /// Returns the plan of `pollclose`.
    pub(crate) fn pollclose<'a>(&self, goroutine: u32, descriptor: u32) -> Result<Plan<'a>, Refusal>
        requires { WellFormed self.now }
        ensures { Plans (steps.PollClose goroutine descriptor) self.now result }
    {
        self.idle(goroutine)?;
        let row = self.closable_row_of(descriptor)?;
        if !row.descriptor.closing {
            return Err(Refusal::CloseWithoutUnblock);
        }
        if self.is_waited(descriptor, Side::Read) || self.is_waited(descriptor, Side::Write) {
            return Err(Refusal::WaiterInside);
        }
        let row = DescriptorRow {
            descriptor: closed(row.descriptor)?,
            ..row
        };
        Ok(
            Plan::new(Answer::Done)
                .then(Edit::Row { descriptor, row })
                .then(Edit::GiveFree { descriptor }),
        )
    }

    /// Returns an open descriptor, if the free list has room for it.
    fn closable_row_of(&self, descriptor: u32) -> Result<DescriptorRow, Refusal>
        requires { WellFormed self.now }
        ensures row { result ≡ step.open_row_of descriptor self.now }
        ensures room { OnOk result (length self.now.free < self.now.limits.descriptors) }
    {
        self.open_row_of(descriptor)
    }

    /// Returns the plan of `evict`.
    pub(crate) fn evict<'a>(&self, goroutine: u32, descriptor: u32) -> Result<Plan<'a>, Refusal>
        ensures { Plans (steps.Evict goroutine descriptor) self.now result }
    {
        self.idle(goroutine)?;
        let row = self.open_row_of(descriptor)?;
        let change = change_by_evict(row.descriptor)?;
        self.then_changed(Plan::new(Answer::Done), descriptor, row, change)
    }

    /// Returns the plan of `pollevent`.
    pub(crate) fn pollevent<'a>(
        &self,
        descriptor: u32,
        tag: u64,
        mode: Mode,
        error: bool,
    ) -> Result<Plan<'a>, Refusal>
        ensures { Plans (steps.PollEvent descriptor tag mode error) self.now result }
    {
        let row = self.row_in(descriptor)?;
        if self.is_free(descriptor) || tag != row.descriptor.fdseq {
            return Ok(Plan::new(Answer::Stale));
        }
        let change = change_by_event(mode, error, row.descriptor);
        self.then_changed(Plan::new(Answer::Done), descriptor, row, change)
    }
}
