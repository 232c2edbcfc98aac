//! Laws: public functions with empty bodies, whose contracts are the laws.

ghost use Rattle.std.specs.Prelude.{◌≡◌, ℕ, Bool, List, [], ◌∷◌, codes, None, Some, Ok, false, true, slice_get, filter, map, ◌<◌, ◌==◌};
ghost use Rattle.std.specs.List.{All};
ghost use Rattle.nr_rev.specs.Run.{Recording};
ghost use Rattle.nr_rev.specs.declared.answer.Answer.{Answer};
ghost use Rattle.nr_rev.specs.declared.step.Step.{Step};
ghost use Rattle.nr_recording.specs.Recording.{recorded_at};
ghost use Rattle.nr_text.specs.Auxiliary.Streams.{unread, unwritten};
ghost use Rattle.nr_lines.specs.declared.ending.End.TheVariants.{Closed, Quit};
ghost use Rattle.nr_snaps.specs.Answers.{Agrees, answer_at};
ghost use Rattle.nr_command.specs.Looking.{is_at_world};
ghost use Rattle.nr_command.specs.declared.command.Query.{Query};
ghost use Rattle.nr_serving.specs.Conversations.{Passed};
ghost use Rattle.nr_serving.specs.Session.{IsShared, IsTheirs, last_pass_state};
ghost use Rattle.nr_programs.specs.Opening.{IsGoodText, opened};
ghost use Rattle.nr_programs.specs.Shared.{AreAnswered, IsAnswered, MeetsOthers, words_seen};
ghost use Rattle.nr_programs.specs.Auxiliary.Shared.{placed_words, tag_at_end};
ghost use Rattle.nr_journal.specs.Rule.{tag_of};
ghost use Rattle.nr_programs.specs.Accepted.{LeadsOnAt};
ghost use Rattle.nr_programs.specs.Among.{Met};
ghost use Rattle.nr_programs.specs.Transcript.{JournalSize, SessionState, Supply, Transcribes, enough, look_answer, start, transcript_by};
ghost use Rattle.nr_programs.specs.Auxiliary.Transcript.{transcript};
ghost use Rattle.nr_programs.specs.declared.opening.TheConstants.{COPY_EVERY};
ghost use Rattle.nr_programs.specs.declared.run.ExitStatus.TheVariants.{Done};
ghost use Rattle.nr_programs.specs.declared.run.TheConstants.{DELTAS_KEPT, JOURNAL_ROOM};
ghost use Rattle.nr_programs.specs.declared.sharing.TheConstants.{MOST_FRONTS, MOST_JOURNAL, MOST_PORT, MOST_WORKERS};

/// If no line ran out of memory or room, and no other front placed a word, there is exactly one transcript: a function
/// of the bytes of the recording and of the commands, and of nothing else.
pub fn a_calm_session_has_one_transcript()
    ensures calm { (recording commands : List ℕ) (ended : Bool) (supplies : List Supply)
        → All (λ supply. supply ≡ enough) supplies
        → transcript_by recording ended commands supplies ≡ transcript_by recording ended commands [] }
    ensures whole { (recording commands : List ℕ)
        → transcript recording commands ≡ transcript_by recording true commands [] }
{}

/// Each caller of a shared session gets the replies that the transcript has for the caller's lines,
/// given the front's state before the first line. All fronts share one history, whose length
/// `placed K` prints. Before a front runs a line, it sees the words that other fronts placed before
/// the line. If the line places a command, the front then sees that command's word, once. So a
/// front sees all of its own words in the history, and each word of the history belongs to one
/// front. The callers are those of the ports, and no other conversations took place.
pub fn callers_are_answered_in_one_history()
    ensures answered { (r : Recording) (room fronts depth workers : ℕ) (passed : List Passed) (history : List ℕ) (failed : Bool)
        → (shared : IsShared r room fronts depth workers passed (Some history) failed)
        → All (λ course. AreAnswered r (record { room = room; passes = fronts }) (tag_at_end course)
        history start [] course.callers) shared.courses }
    ensures theirs { (r : Recording) (room fronts depth workers : ℕ) (passed : List Passed) (history : List ℕ) (failed : Bool)
        → (shared : IsShared r room fronts depth workers passed (Some history) failed)
        → All (IsTheirs (map last_pass_state shared.courses)) history }
{}

/// If a caller sent no bytes and yet received one, `IsAnswered` doesn't hold.
pub fn a_lie_is_no_answer()
    ensures { (r : Recording) (journal : JournalSize) (tag : ℕ) → ¬ (IsAnswered r journal tag (record {
      input = unread None;
      output = record { contents = None; sent = 65 ∷ []; failed = false };
      ending = Ok Closed;
    }) start) }
{}

/// `IsAnswered` doesn't hold for a caller whose input was never read: its end wasn't reached, and no line was `quit`.
pub fn an_unread_caller_is_not_answered()
    ensures { (r : Recording) (journal : JournalSize) (tag : ℕ) → ¬ (IsAnswered r journal tag (record {
      input = unread None;
      output = unwritten None;
      ending = Ok Closed;
    }) start) }
{}

/// `IsAnswered` doesn't hold if the front read again before it answered the caller's line, even if
/// it sent the reply later.
pub fn a_late_reply_is_no_answer()
    ensures { (r : Recording) (journal : JournalSize) (tag : ℕ) → ¬ (IsAnswered r journal tag (record {
      input = record {
        remaining = None;
        received = codes "quit\n";
        ended = false;
        failed = false;
        moments = record { received = codes "quit\n"; sent = []; ended = false } ∷ [];
      };
      output = record { contents = None; sent = codes "bye\n"; failed = false };
      ending = Ok Quit;
    }) start) }
{}

/// `IsAnswered` doesn't hold if the front read again after the end of the caller's input, even if
/// it sent the reply to the last line later.
pub fn an_end_read_twice_is_no_answer()
    ensures { (r : Recording) (journal : JournalSize) (tag : ℕ) → ¬ (IsAnswered r journal tag (record {
      input = record {
        remaining = None;
        received = codes "quit";
        ended = true;
        failed = false;
        moments = record { received = codes "quit"; sent = []; ended = true } ∷ [];
      };
      output = record { contents = None; sent = codes "bye\n"; failed = false };
      ending = Ok Quit;
    }) start) }
{}

/// If a run received no bytes and yet sent one, `Transcribes` doesn't hold, whatever the recording
/// is.
pub fn a_lie_is_no_run()
    ensures { (recording : List ℕ) (r : Recording) → opened recording ≡ Ok r → ¬ (Transcribes recording
        (unread None)
        (record { remaining = None; received = []; ended = true; failed = false; moments = [] })
        (unwritten None)
        (record { contents = None; sent = 65 ∷ []; failed = false }) Done) }
{}

/// While a front runs its callers' lines, it sees its own words and words of other fronts. Its own
/// words are those of the commands that the lines placed, each once and in the order of the lines.
/// So these words are in the session's history, in this order.
pub fn each_placed_command_is_there_once()
    ensures { (tag : ℕ) (r : Recording) (s : SessionState) (lines : List (List ℕ)) (met : List Met) → tag < 256
        → All (MeetsOthers tag) met
        → filter (λ word. tag_of word == tag) (words_seen tag r s lines met) ≡ placed_words tag r s lines met }
{}

/// The reply to a query about the world depends only on the position, not on marks, checkpoints,
/// the direction or the way to that position: two sessions at the same position give the same
/// reply.
pub fn a_position_shows_one_thing()
    ensures { (r : Recording) (query : Query) (s t : SessionState) → is_at_world query ≡ true
        → s.debugger.position ≡ t.debugger.position
        → (look_answer r query enough s).0 ≡ (look_answer r query enough t).0 }
{}

/// An accepted recording is a run of the machine: each of its steps applies at its position, turns
/// the world there into the next one, and gives the recorded answer, if one is recorded.
pub fn an_accepted_recording_is_a_run()
    ensures runs { (bytes : List ℕ) (r : Recording) (n : ℕ) (step : Step) → IsGoodText bytes r
        → slice_get r.steps n ≡ Some step → LeadsOnAt r n step }
    ensures answers { (bytes : List ℕ) (r : Recording) (n : ℕ) (given : Answer) → (good : IsGoodText bytes r)
        → answer_at r n ≡ Some given → Agrees (recorded_at good.recorded n) given }
{}

/// The limits of `serve` are ports up to 65,535, 64 fronts, 16 workers, and a journal of 1,000,000
/// words. The journal of `run` has 65,536 words. `run` and `serve` keep 4,096 deltas, and a copy
/// every 1,024 steps.
pub fn the_numbers()
    ensures port { MOST_PORT ≡ 65535 }
    ensures fronts { MOST_FRONTS ≡ 64 }
    ensures workers { MOST_WORKERS ≡ 16 }
    ensures journal { MOST_JOURNAL ≡ 1000000 }
    ensures run_journal { JOURNAL_ROOM ≡ 65536 }
    ensures deltas { DELTAS_KEPT ≡ 4096 }
    ensures copies { COPY_EVERY ≡ 1024 }
{}
