//! The steps that open, evict and close a descriptor and deliver events to it: Go's `poll_runtime_pollOpen`,
//! `poll_runtime_pollUnblock`, `poll_runtime_pollClose` and `netpollready`.

ghost use Rattle.std.specs.Prelude.{◌≡◌, [], slice_get, Some};
ghost use Rattle.nr_rev.specs.Step as step;
ghost use Rattle.nr_desc.specs.declared.op.DescOp.TheVariants as desc;
ghost use Rattle.nr_machine.specs.Asked.{asked_at};
ghost use Rattle.nr_machine.specs.Fits.{IsWorld};
ghost use Rattle.nr_machine.specs.Auxiliary.Made.{Makes};
ghost use Rattle.nr_machine.specs.Opening.{opening_of};
ghost use Rattle.nr_machine.specs.World.{meant};

use crate::delta::{DescUndo, WorldUndo};
use crate::world::World;
use nr_desc::{Desc, DescOp};
use nr_rev::{Answer, Keeper, Mode, Refusal, Reversible, Side};

impl World {
    /// `pollopen`.
    #[inline(always)]
    pub(crate) fn pollopen<K: Keeper<WorldUndo>>(
        &mut self,
        goroutine: u32,
        socket: u32,
        way: &mut K,
    ) -> Result<Answer, Refusal>
        requires { IsWorld self.old }
        ensures { Makes K.holds way.new (step.pollopen goroutine socket (meant self.old)) [] self.old result self.new }
    {
        self.idle(goroutine)?;
        if socket as usize >= self.core.locks.len() {
            return Err(Refusal::NoSuchSocket);
        }
        match self.core.free.get(0) {
            None => self.open_new(socket, way),
            Some(descriptor) => self.reopen(descriptor, socket, way),
        }
    }

    /// Reopens the descriptor with the first free number.
    #[inline(always)]
    fn reopen<K: Keeper<WorldUndo>>(
        &mut self,
        descriptor: u32,
        socket: u32,
        way: &mut K,
    ) -> Result<Answer, Refusal>
        requires world { IsWorld self.old }
        requires first { slice_get self.old.core.free.items 0 ≡ Some descriptor }
        ensures { Makes K.holds way.new (opening_of socket self.old.core.free.items (meant self.old)) [] self.old result self.new }
    {
        let mut desc = self.desc_of(descriptor)?;
        let (_, before) = desc.apply(&DescOp::Open { socket })?;
        let _ = self.core.free.take_first();
        self.core.set_descriptor(descriptor, desc);
        way.put(WorldUndo::Reopened(DescUndo { descriptor, before }));
        Ok(Answer::Number(descriptor))
    }

    /// Opens a descriptor that was never opened before.
    #[inline(always)]
    fn open_new<K: Keeper<WorldUndo>>(
        &mut self,
        socket: u32,
        way: &mut K,
    ) -> Result<Answer, Refusal>
        requires { IsWorld self.old }
        ensures { Makes K.holds way.new (opening_of socket [] (meant self.old)) [] self.old result self.new }
    {
        let made = self.core.descriptors.len();
        if made >= self.core.limits.descriptors as usize {
            return Err(Refusal::TableFull);
        }
        let mut desc = Desc::never_opened();
        let _ = desc.apply(&DescOp::Open { socket })?;
        self.core.descriptors.push(desc);
        way.put(WorldUndo::Made);
        Ok(Answer::Number(made as u32))
    }

    /// `pollclose`.
    #[inline(always)]
    pub(crate) fn pollclose<K: Keeper<WorldUndo>>(
        &mut self,
        goroutine: u32,
        descriptor: u32,
        way: &mut K,
    ) -> Result<Answer, Refusal>
        requires { IsWorld self.old }
        ensures { Makes K.holds way.new (step.pollclose goroutine descriptor (meant self.old)) [] self.old result self.new }
    {
        self.idle(goroutine)?;
        let closing = self.open_desc_of(descriptor)?.closing();
        if !closing {
            return Err(Refusal::CloseWithoutUnblock);
        }
        if self.is_waited(descriptor, Side::Read) || self.is_waited(descriptor, Side::Write) {
            return Err(Refusal::WaiterInside);
        }
        let (_, desc) = self.core.describe(descriptor, &DescOp::Close)?;
        self.core.free.insert(0, descriptor);
        way.put(WorldUndo::Closed(desc));
        Ok(Answer::Done)
    }

    /// `evict`.
    #[inline(always)]
    pub(crate) fn evict<K: Keeper<WorldUndo>>(
        &mut self,
        goroutine: u32,
        descriptor: u32,
        way: &mut K,
    ) -> Result<Answer, Refusal>
        requires { IsWorld self.old }
        ensures { Makes K.holds way.new (step.evict goroutine descriptor (meant self.old))
            (asked_at descriptor desc.Evict self.old) self.old result self.new }
    {
        self.idle(goroutine)?;
        let desc = self.open_desc_of(descriptor)?;
        self.change(descriptor, desc, &DescOp::Evict, way)
    }

    /// `pollevent`.
    #[inline(always)]
    pub(crate) fn pollevent<K: Keeper<WorldUndo>>(
        &mut self,
        descriptor: u32,
        tag: u64,
        mode: Mode,
        error: bool,
        way: &mut K,
    ) -> Result<Answer, Refusal>
        requires { IsWorld self.old }
        ensures { Makes K.holds way.new (step.pollevent descriptor tag mode error (meant self.old)) []
            self.old result self.new }
    {
        let desc = self.desc_of(descriptor)?;
        if self.is_free(descriptor) || tag != desc.fdseq() {
            way.put(WorldUndo::Still);
            return Ok(Answer::Stale);
        }
        self.change(descriptor, desc, &DescOp::Event { tag, mode, error }, way)
    }
}
