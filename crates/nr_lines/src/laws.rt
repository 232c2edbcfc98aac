//! Laws of the definitions.

ghost use Rattle.std.specs.Prelude.{ℕ, List};
ghost use Rattle.nr_front.specs.FrontState.{FrontState};
ghost use Rattle.nr_lines.specs.Auxiliary.Engine.{Grows, Turns};

/// In the course of a transcript, the front only appends words to those that it has read. Its count
/// of failed attempts to read a word never decreases. So the histories of all replies are prefixes
/// of one history.
pub fn a_transcript_grows()
    ensures { (d : FrontState) (lines texts : List (List ℕ)) (d' : FrontState)
        → Turns d lines texts d' → Grows d d' }
{}
