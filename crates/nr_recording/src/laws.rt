//! Laws of the format, as functions without code.

ghost use Rattle.std.specs.Prelude.{◌≡◌, All, List, ℕ};
ghost use Rattle.nr_recording.specs.Recording.{Recorded};
ghost use Rattle.nr_recording.specs.Auxiliary.Recording.{IsRecording};
ghost use Rattle.nr_recording.specs.Reading.{reading};
ghost use Rattle.nr_recording.specs.Text.{IsTextOf};
ghost use Rattle.nr_recording.specs.Version.{most_buffer};
ghost use Rattle.nr_recording.specs.Auxiliary.Version.{version_number};
ghost use Rattle.nr_recording.specs.declared.version.Version.TheVariants.{One, Two};
ghost use Rattle.nr_recording.specs.Writing.{HasTypedArguments, text};
ghost use Rattle.nr_recording.specs.declared.recording.TheConstants.{MOST_BYTES, MOST_STEPS};
ghost use Rattle.nr_recording.specs.declared.reading.TheConstants.{MOST_LINE_BYTES};

/// The text that `write` writes for a recording follows the grammar, and reading it returns the
/// same recording. `HasTypedArguments` only says that each number in a step and its answer is in
/// the range of its type.
#[tactic(auto, using(crate::proofs::WrittenLemmas::text_is_text, crate::proofs::WrittenLemmas::text_read_again))]
pub fn what_is_written_is_read_again()
    ensures text { (r : Recorded) → IsRecording r → All HasTypedArguments r.steps → IsTextOf (text r) r }
    ensures reading { (r : Recorded) → IsRecording r → All HasTypedArguments r.steps
        → reading (text r) ≡ Ok r }
{}

/// A text denotes at most one recording: the one that `read` returns.
#[tactic(auto, using(crate::proofs::TextLaws::reading_found))]
pub fn a_text_is_of_what_it_is_read_as()
    ensures found { (bytes : List ℕ) (r : Recorded) → reading bytes ≡ Ok r → IsTextOf bytes r }
    ensures only { (bytes : List ℕ) (r : Recorded) → IsTextOf bytes r → reading bytes ≡ Ok r }
{}

/// A recording has at most 1,000,000 steps. Each line has at most 200,000 bytes, and each step has
/// at most 65,536 bytes of data. The versions have the numbers 1 and 2. `buf` is at most 65,536 in
/// version 1 and 1,048,576 in version 2.
pub fn the_numbers()
    ensures steps { MOST_STEPS ≡ 1000000 }
    ensures line { MOST_LINE_BYTES ≡ 200000 }
    ensures bytes { MOST_BYTES ≡ 65536 }
    ensures versions { (version_number One ≡ 1) × (version_number Two ≡ 2) }
    ensures buffers { (most_buffer One ≡ 65536) × (most_buffer Two ≡ 1048576) }
{}
