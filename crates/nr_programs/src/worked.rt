//! Example sessions: the transcripts of examples/, and short sessions in which memory runs out, the
//! journal is full, or another front places a word. The bodies are empty; the prover computes each
//! clause.

ghost use Rattle.std.specs.Prelude.{◌≡◌, ◌∷◌, [], true, codes};
ghost use Rattle.nr_programs.specs.Examples.{answers_commands, answers_replies, answers_run, first_commands, first_replies, first_run, leaked_reference_commands, leaked_reference_replies, leaked_reference_run, lost_wakeup_commands, lost_wakeup_replies, lost_wakeup_run, past_deadline_commands, past_deadline_replies, past_deadline_run, reused_descriptor_commands, reused_descriptor_replies, reused_descriptor_run, shut_write_side_commands, shut_write_side_replies, shut_write_side_run, stale_deadline_commands, stale_deadline_replies, stale_deadline_run, temporary_break_commands, temporary_break_replies, temporary_break_run};
ghost use Rattle.nr_programs.specs.Among.{replies_among};
ghost use Rattle.nr_programs.specs.Transcript.{enough, no_memory, no_memory_to_search, no_room, replies, start};

/// The sessions of examples/: the replies to the commands are exactly the expected replies, byte for byte. The
/// first session is the README's.
pub fn examples_have_their_replies()
    ensures first { replies first_run start true first_commands [] ≡ first_replies }
    ensures leaked_reference { replies leaked_reference_run start true leaked_reference_commands [] ≡ leaked_reference_replies }
    ensures lost_wakeup { replies lost_wakeup_run start true lost_wakeup_commands [] ≡ lost_wakeup_replies }
    ensures past_deadline { replies past_deadline_run start true past_deadline_commands [] ≡ past_deadline_replies }
    ensures reused_descriptor { replies reused_descriptor_run start true reused_descriptor_commands [] ≡ reused_descriptor_replies }
    ensures stale_deadline { replies stale_deadline_run start true stale_deadline_commands [] ≡ stale_deadline_replies }
    ensures temporary_break { replies temporary_break_run start true temporary_break_commands [] ≡ temporary_break_replies }
    ensures answers { replies answers_run start true answers_commands [] ≡ answers_replies }
    ensures shut_write_side { replies shut_write_side_run start true shut_write_side_commands [] ≡ shut_write_side_replies }
{}

/// The replies if a query runs out of memory, if a search runs out of memory and `resume` completes
/// it, and if the journal has no room for a command. The last clause shows the reply to a command
/// after another front's `stepi 5`.
pub fn what_lines_meet_is_answered()
    ensures refused_look { replies first_run start true (codes "print lock 0\nprint lock 0\n")
        (no_memory ∷ []) ≡ codes "fault 301 memory\nlock 0 = absent\n" }
    ensures refused_search { replies first_run start true (codes "continue\nstepi\nresume\ninfo position\n")
        (no_memory_to_search ∷ []) ≡ codes "fault 302 memory, placed 1\nfault 302 memory, placed 1\nat 10 end\nat 10 of 10 forward\n" }
    ensures full_journal { replies first_run start true (codes "stepi\nstepi 2\n")
        (no_room ∷ []) ≡ codes "fault 303 journal full\nat 2\n" }
    ensures word_of_another { replies_among first_run start true (codes "stepi\n")
        (record { others = 327937 ∷ []; supply = enough } ∷ []) ≡ codes "at 6\n" }
{}
