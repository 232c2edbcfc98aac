//! Pages of held replies.

ghost use Rattle.std.specs.Prelude.{◌≡◌, ℕ, ◌≤◌, ◌-◌, ◌++◌, [], false, length, take, true};
ghost use Rattle.nr_text.specs.Streams.{saturating_count};
ghost use Rattle.nr_text.specs.Auxiliary.Streams.{Prints};
ghost use Rattle.nr_lines.specs.Page.{PrintsBehind};

use arrayvec::ArrayVec;
use nr_text::{Part, Sink, Text};
use std::io::Write;
use std::marker::Model;
use std::mem::replace;

/// The size of a page in bytes.
const ROOM: usize = 4096;

/// Held replies, one after the other.
#[derive(Drop)]
pub(crate) struct Page {
    sink: Sink<ArrayVec<u8, ROOM>>,
}

impl Model for Page {
    ghost use Rattle.std.specs.Prelude.{◌≡◌, ℕ, List, Some};
    ghost use Rattle.nr_lines.specs.Page.{known_bytes};

    ghost Value = { List ℕ };

    ghost view = { λ p. known_bytes p.sink.contents };

    ghost invariant = { λ p. p.sink.contents ≡ Some (known_bytes p.sink.contents) };
}

impl Page {
    /// Makes an empty page.
    pub(crate) fn new() -> Page
        ensures { result ≡ [] }
    {
        Page {
            sink: Sink::new(ArrayVec::new()),
        }
    }

    /// Prints a text: holds it if there is room for it, and otherwise writes the held bytes and
    /// then the text.
    pub(crate) fn print<W: Write, T: Text>(&mut self, text: &T, w: &mut Sink<W>) -> Result<(), Part>
        ensures { PrintsBehind w.old self.old w.new self.new (T.text text.now) result }
    {
        if self.hold(text) {
            return Ok(());
        }
        self.put_out(w)?;
        w.print(text)
    }

    /// Holds a text if there is room for it. Returns whether there was room.
    fn hold<T: Text>(&mut self, text: &T) -> bool
        ensures holds { result ≡ true → self.new ≡ self.old ++ T.text text.now }
        ensures leaves { result ≡ false → self.new ≡ self.old }
    {
        let Err(part) = self.sink.print(text) else {
            return true;
        };
        self.take_back(part);
        false
    }

    /// Removes this part of a text from the end of the held bytes.
    // (Not inlined: it has a local page, which would be cleared each time a text is held.)
    #[inline(never)]
    fn take_back(&mut self, part: Part)
        ensures { (n : ℕ) → part.0 ≡ saturating_count n → n ≤ length self.old
            → self.new ≡ take (length self.old - n) self.old }
    {
        let mut bytes = self.take();
        bytes.truncate(bytes.len().saturating_sub(part.0 as usize));
        self.sink = Sink::new(bytes);
    }

    /// Writes the held bytes, in one write if the writer accepts them all.
    pub(crate) fn put_out<W: Write>(&mut self, w: &mut Sink<W>) -> Result<(), Part>
        ensures prints { Prints w.old w.new self.old result }
        ensures empty { self.new ≡ [] }
    {
        let bytes = self.take();
        w.print(&bytes.as_slice())
    }

    /// Removes and returns the held bytes.
    fn take(&mut self) -> ArrayVec<u8, ROOM>
        ensures bytes { result.items ≡ self.old }
        ensures empty { self.new ≡ [] }
    {
        replace(&mut self.sink, Sink::new(ArrayVec::new())).into_inner()
    }
}
