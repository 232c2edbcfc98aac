//! Outboxes, which write replies.

ghost use Rattle.std.specs.Prelude.{◌≡◌, []};
ghost use Rattle.nr_text.specs.Auxiliary.Streams.{Prints};
ghost use Rattle.nr_lines.specs.Outbox.{Delivers, held_bytes, is_at_once};

use crate::page::Page;
use nr_text::{Part, Sink, Text};
use std::io::Write;

/// How replies are written.
#[derive(Drop)]
pub(crate) enum Outbox {
    /// Each reply is written immediately, in a write of its own.
    AtOnce,
    /// Replies are held on a page until it is full or until the next read.
    Held(Page),
}

impl Outbox {
    /// Prints a text after the texts that are held.
    pub(crate) fn print<W: Write, T: Text>(&mut self, text: &T, w: &mut Sink<W>) -> Result<(), Part>
        ensures { Delivers w.old self.old w.new self.new (T.text text.now) result }
    {
        match self {
            Outbox::AtOnce => w.print(text),
            Outbox::Held(page) => page.print(text, w),
        }
    }

    /// Writes the held bytes.
    pub(crate) fn put_out<W: Write>(&mut self, w: &mut Sink<W>) -> Result<(), Part>
        ensures prints { Prints w.old w.new (held_bytes self.old) result }
        ensures empty { held_bytes self.new ≡ [] }
        ensures kind { is_at_once self.new ≡ is_at_once self.old }
    {
        match self {
            Outbox::AtOnce => Ok(()),
            Outbox::Held(page) => page.put_out(w),
        }
    }
}
