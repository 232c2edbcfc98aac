//! The steps that open sockets and move bytes into and out of their buffers.

ghost use Rattle.nr_machine.specs.Fits.{IsWorld};
ghost use Rattle.nr_machine.specs.Auxiliary.Made.{MakesStep};
ghost use Rattle.nr_machine.specs.Transfers.{IsOpening, IsTransfer, IsTransferOf};
ghost use Rattle.nr_machine.specs.World.{meant};

use crate::delta::WorldUndo;
use crate::world::World;
use nr_rev::{Answer, Keeper, Refusal, Reversible, Step};

impl World {
    /// `sockopen`.
    #[inline(always)]
    pub(crate) fn sockopen<K: Keeper<WorldUndo>>(
        &mut self,
        step: &Step,
        way: &mut K,
    ) -> Result<Answer, Refusal>
        requires world { IsWorld self.old }
        requires step { IsOpening step.now }
        ensures { MakesStep K.KEEPS K.holds way.new step.now self.old result self.new }
    {
        let opened = self.core.locks.len();
        if opened >= self.core.limits.sockets as usize {
            return Err(Refusal::TableFull);
        }
        let (_, delta) = self.socks[opened].apply(step)?;
        self.core.add_lock();
        way.put(WorldUndo::Opened(delta));
        Ok(Answer::Number(opened as u32))
    }

    /// Applies a step to the buffers of one socket.
    #[inline(always)]
    pub(crate) fn transfer<K: Keeper<WorldUndo>>(
        &mut self,
        socket: u32,
        step: &Step,
        way: &mut K,
    ) -> Result<Answer, Refusal>
        requires world { IsWorld self.old }
        requires step { IsTransfer socket (meant self.old) step.now }
        ensures { MakesStep K.KEEPS K.holds way.new step.now self.old result self.new }
    {
        if socket as usize >= self.core.locks.len() {
            return Err(Refusal::NoSuchSocket);
        }
        let sock = &mut self.socks[socket as usize];
        if K::KEEPS {
            let (answer, delta) = sock.apply(step)?;
            way.put(WorldUndo::Sock { socket, delta });
            return Ok(answer);
        }
        sock.advance(step)
    }

    /// Applies a step to the buffers of one socket for a goroutine that must be idle.
    #[inline(always)]
    pub(crate) fn transfer_of<K: Keeper<WorldUndo>>(
        &mut self,
        goroutine: u32,
        socket: u32,
        step: &Step,
        way: &mut K,
    ) -> Result<Answer, Refusal>
        requires world { IsWorld self.old }
        requires step { IsTransferOf goroutine socket step.now }
        ensures { MakesStep K.KEEPS K.holds way.new step.now self.old result self.new }
    {
        self.idle(goroutine)?;
        self.transfer(socket, step, way)
    }
}
