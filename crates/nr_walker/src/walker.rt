//! A walker: a world that goes to any position of a film, with a ring of deltas.

ghost use Rattle.std.specs.Prelude.{◌≡◌, ◌<◌, ◌≤◌, ◌+◌, ◌-◌, length, IfOk, OnOk, OnErr};
ghost use Rattle.nr_rev.specs.Auxiliary.Run.{LosesBytesAt};
ghost use Rattle.nr_snaps.specs.Film.{IsFrame};
ghost use Rattle.nr_walker.specs.Walk.{IsRefusedBy, StopsShort, at_copy, backwards, forwards, moved_by, route, walk_by};
ghost use Rattle.nr_walker.specs.declared.walker.TheConstants.{LEAST_DEPTH, MOST_DEPTH};

use crate::moved::Moved;
use crate::places::{make_places, place_after, place_before};
use crate::route::Route;
use nr_rev::{Memory, Worlds};
use nr_snaps::Film;
use std::alloc::Global;
use std::marker::Model;

/// The minimum depth of a walker. The depth is the maximum number of deltas that it keeps.
pub const LEAST_DEPTH: usize = 1;

/// The maximum depth of a walker.
pub const MOST_DEPTH: usize = 65_536;

/// A world at a position of a film, with the deltas of the last steps.
///
/// The delta of the step after position k is written to place k modulo `depth + 1` and stays there.
/// At most `depth` deltas are kept, so one place is always unused. Therefore the next step
/// overwrites no kept delta, even if the step is refused. `new` allocates the memory for all
/// places; a place is initialized when a step first needs it.
#[derive(Drop)]
pub struct Walker<'f, W: Worlds + Drop>
where
    W::Delta: Drop,
    W::Snapshot: Drop,
{
    film: &'f Film<W>,
    world: W,
    position: usize,
    places: Vec<W::Delta>,
    // the place of the next step
    next: usize,
    kept: usize,
    depth: usize,
}

impl<'f, W: Worlds + Drop> Model for Walker<'f, W>
where
    W::Delta: Drop,
    W::Snapshot: Drop,
{
    ghost use Rattle.std.specs.Prelude.{◌<◌, vec_len};
    ghost use Rattle.nr_walker.specs.Walk.{Walk};
    ghost use Rattle.nr_walker.specs.Way.{IsWay};

    ghost Value = { Walk W };

    ghost view = { λ w. record {
      film = w.film.now;
      position = w.position;
      kept = w.kept;
      depth = w.depth;
    } };

    ghost invariant = { λ w. IsWay W.is_well_formed W.world W.steps W.back
        w.film.now w.position w.world w.places w.next w.kept w.depth
        × (w.next < vec_len w.places) };
}

impl<'f, W: Worlds + Drop> Walker<'f, W>
where
    W::Delta: Drop,
    W::Snapshot: Drop,
{
    /// Makes a walker at position 0 that keeps the deltas of the last `depth` steps. Allocates
    /// memory for a copy of the world and for the deltas, and fails if memory runs out.
    pub fn new(alloc: Global, film: &'f Film<W>, depth: usize) -> Result<Walker<'f, W>, Memory>
        requires least { LEAST_DEPTH ≤ depth }
        requires most { depth ≤ MOST_DEPTH }
        ensures { IfOk result (λ walker. walker
            ≡ record { film = film.now; position = 0; kept = 0; depth = depth }) }
    {
        let world = film.start().try_copy()?;
        let mut places = Vec::with_capacity(alloc, depth + 1)?;
        make_places::<W>(&mut places, 1);
        Ok(Walker {
            film,
            world,
            position: 0,
            places,
            next: 0,
            kept: 0,
            depth,
        })
    }

    /// Returns the number of steps before the walker's position.
    pub fn position(&self) -> usize
        ensures is { result ≡ self.now.position }
        ensures within { result ≤ length self.now.film.recording.steps }
    {
        self.position
    }

    /// Returns the film that the walker is on.
    pub fn film(&self) -> &'f Film<W>
        ensures { result.now ≡ self.now.film }
    {
        self.film
    }

    /// Returns the number of deltas that the walker keeps. It can undo as many steps.
    pub fn kept(&self) -> usize
        ensures is { result ≡ self.now.kept }
        ensures within { result ≤ self.now.depth }
        ensures behind { result ≤ self.now.position }
    {
        self.kept
    }

    /// Returns the maximum number of deltas that the walker keeps.
    pub fn depth(&self) -> usize
        ensures is { result ≡ self.now.depth }
        ensures least { LEAST_DEPTH ≤ result }
        ensures most { result ≤ MOST_DEPTH }
    {
        self.depth
    }

    /// Returns the world at the walker's position: exactly the state that the film's replay has
    /// there.
    pub fn world(&self) -> &W
        ensures { IsFrame W.is_well_formed W.world W.steps self.now.film self.now.position
            result.now }
    {
        &self.world
    }

    /// Goes to position n, and returns the cost.
    ///
    /// If the walker keeps all deltas on the way back to n, it undoes them. If n is ahead, and
    /// nearer than the distance between two copies of the film, it applies the steps up to n.
    /// Otherwise it restores the film's copy at or below n, drops all deltas, and applies the steps
    /// from there. The walker keeps the deltas of the last steps that it applied, up to its depth.
    ///
    /// Undoing deltas allocates no memory, and a step allocates memory only if bytes leave a
    /// buffer. If memory runs out for such a step, the walker is at the position before it, with
    /// the deltas of the steps so far. If memory runs out while the copy is restored, the walker is
    /// unchanged.
    pub fn goto(&mut self, n: usize) -> Result<Moved, Memory>
        requires { n ≤ length self.old.film.recording.steps }
        ensures there { OnOk result (self.new ≡ walk_by (route self.old n) self.old n) }
        ensures moved { IfOk result (λ moved. moved ≡ moved_by (route self.old n) self.old n) }
        ensures refused { OnErr result (IsRefusedBy (route self.old n) self.old n self.new) }
    {
        match self.route(n) {
            Route::Back => {
                let undos = self.position - n;
                self.back_to(n);
                Ok(Moved {
                    applies: 0,
                    undos,
                    copies: 0,
                })
            }
            Route::Forward => {
                let applies = n - self.position;
                self.forward_to(n)?;
                Ok(Moved {
                    applies,
                    undos: 0,
                    copies: 0,
                })
            }
            Route::FromCopy => {
                self.to_copy_below(n)?;
                let applies = n - self.position;
                self.forward_to(n)?;
                Ok(Moved {
                    applies,
                    undos: 0,
                    copies: 1,
                })
            }
        }
    }

    // Returns the route to position n.
    fn route(&self, n: usize) -> Route
        ensures is { result ≡ route self.now n }
        ensures kept { self.now.kept ≤ self.now.depth }
    {
        if n <= self.position && self.position - n <= self.kept {
            return Route::Back;
        }
        if self.position <= n && n - self.position < self.film.every() {
            return Route::Forward;
        }
        Route::FromCopy
    }

    // Goes back to position n by undoing kept deltas. Allocates no memory.
    fn back_to(&mut self, n: usize)
        requires below { n ≤ self.old.position }
        requires kept { self.old.position - n ≤ self.old.kept }
        ensures { self.new ≡ backwards self.old n }
    {
        while n < self.position {
            self.backward();
        }
    }

    // Goes forward to position n. If memory runs out, the walker is at the position before the step
    // that needs it.
    fn forward_to(&mut self, n: usize) -> Result<(), Memory>
        requires from { self.old.position ≤ n }
        requires within { n ≤ length self.old.film.recording.steps }
        requires kept { self.old.kept ≤ self.old.depth }
        ensures ok { OnOk result (self.new ≡ forwards self.old n) }
        ensures refused { OnErr result (StopsShort self.old n self.new) }
    {
        while self.position < n {
            self.forward()?;
        }
        Ok(())
    }

    // Restores the film's copy at or below n. If memory runs out, nothing changes.
    fn to_copy_below(&mut self, n: usize) -> Result<(), Memory>
        requires { n ≤ length self.old.film.recording.steps }
        ensures ok { OnOk result (self.new ≡ at_copy self.old n) }
        ensures err { OnErr result (self.new ≡ self.old) }
    {
        self.film.restore_below(&mut self.world, n)?;
        let every = self.film.every();
        self.position = n / every * every;
        self.next = self.position % (self.depth + 1);
        self.kept = 0;
        make_places::<W>(&mut self.places, self.next + 1);
        Ok(())
    }

    // Goes one step forward. If the walker has as many deltas as its depth, it drops the oldest
    // one. If memory runs out, the walker is unchanged.
    #[inline(always)]
    fn forward(&mut self) -> Result<(), Memory>
        requires within { self.old.position < length self.old.film.recording.steps }
        requires fits { self.old.position < usize.MAX }
        ensures ok { OnOk result (self.new ≡ forwards self.old (self.old.position + 1)) }
        ensures unchanged { OnErr result (self.new ≡ self.old) }
        ensures refused { OnErr result (LosesBytesAt self.old.film.recording self.old.position) }
    {
        self.film.apply(&mut self.world, self.position, &mut self.places[self.next])?;
        self.position += 1;
        self.next = place_after(self.next, self.depth);
        if self.next == self.places.len() {
            self.places.push_reserved(W::no_delta());
        }
        self.kept = (self.kept + 1).min(self.depth);
        Ok(())
    }

    // Goes one step back. Allocates no memory.
    #[inline(always)]
    fn backward(&mut self)
        requires { 0 < self.old.kept }
        ensures { self.new ≡ record self.old {
          position = self.old.position - 1;
          kept = self.old.kept - 1;
        } }
    {
        self.next = place_before(self.next, self.depth);
        self.world.undo_from(&mut self.places[self.next]);
        self.position -= 1;
        self.kept -= 1;
    }
}
