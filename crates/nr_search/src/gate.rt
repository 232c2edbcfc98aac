//! A gate that is notified when a worker searches.

/// Is notified when a worker begins and finishes searching a segment. Workers are counted from 1.
pub trait Gate {
    /// Called before the worker searches a segment.
    fn enter(&self, worker: usize);

    /// Called after the worker has searched a segment.
    fn leave(&self, worker: usize);
}

/// A gate that is always open.
#[derive(Clone, Copy, Debug)]
pub struct Open;

impl Gate for Open {
    fn enter(&self, _worker: usize) {}

    fn leave(&self, _worker: usize) {}
}

impl<G: Gate> Gate for &G {
    fn enter(&self, worker: usize) {
        (**self).enter(worker);
    }

    fn leave(&self, worker: usize) {
        (**self).leave(worker);
    }
}
