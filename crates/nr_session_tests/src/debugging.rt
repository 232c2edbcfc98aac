//! Tests of what a debugger's methods return about its state, and of a reply that a writer cuts
//! short.

use nr_command::{Debugger, Reply};
use nr_replay_tests::{AtBrim, Cup};
use nr_search::Direction;
use nr_text::{Part, Sink};
use std::test::Fail;

#[test]
fn a_new_debugger_is_at_the_start_and_keeps_nothing(rt: HostRuntime) -> Result<(), Fail> {
    let debugger = Debugger::new();
    assert_eq!(rt; debugger.position(), 0);
    assert_eq!(rt; debugger.direction(), Direction::Forward);
    assert_eq!(rt; debugger.marks().len(), 0);
    assert_eq!(rt; debugger.checkpoints().position_of(1), None);
    Ok(())
}

#[test]
fn a_reply_that_is_cut_says_how_much_of_it_is_out(rt: HostRuntime) -> Result<(), Fail> {
    let text = b"at 12 end\n";
    for room in 0..=text.len() {
        let mut out = Sink::new(Cup {
            held: Vec::new(rt.alloc()),
            room,
            then: AtBrim::Fails,
        });
        let printed = Reply::AtEnd(12).print(&mut out);
        let cut = if room < text.len() {
            Err(Part(room as u64))
        } else {
            Ok(())
        };
        assert_eq!(rt; printed, cut);
        assert_eq!(rt; out.into_inner().held.as_slice(), &text[..room]);
    }
    Ok(())
}
