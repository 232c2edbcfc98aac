//! The world over lists.

use crate::sockets::Sockets;
use nr_rev::{DescriptorRow, Entry, Limits, RoomedList, Status};
use std::alloc::Global;
use std::marker::Model;

/// A world over lists, whose memory is allocated once.
#[derive(Drop)]
pub struct PlainWorld {
    pub(crate) alloc: Global,
    pub(crate) limits: Limits,
    pub(crate) goroutines: RoomedList<Status>,
    pub(crate) sockets: Sockets,
    pub(crate) descriptors: RoomedList<DescriptorRow>,
    pub(crate) firings: RoomedList<Entry>,
    pub(crate) free: RoomedList<u32>,
    pub(crate) clock: i64,
    pub(crate) waiters: u64,
    pub(crate) next_arming: u64,
}

impl Model for PlainWorld {
    ghost use Rattle.nr_rev.specs.World.{World};

    ghost Value = { World };

    ghost use Rattle.nr_plain.specs.World.{world_view, HasRooms};

    ghost view = { world_view };

    ghost invariant = { HasRooms };
}
