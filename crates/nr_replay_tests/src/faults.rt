//! The texts of faults. Each fault has a line and a message. The text of the line is proved
//! correct; the code that writes the message is derived.

use nr_recording::{Fault, MakeFault, ReadFault, WriteFault};
use nr_rev::Refusal;
use nr_snaps::LoadFault;
use nr_text::{Sink, Text};
use std::alloc::{AllocError, Global};
use std::fmt::Display;
use std::test::Fail;

/// The faults of a line.
const FAULTS: [Fault; 6] = [
    Fault::Header,
    Fault::NotJson,
    Fault::UnknownStep,
    Fault::Arguments,
    Fault::Limit,
    Fault::TooManySteps,
];

/// The machine's reasons in the order of their numbers, from 1.
const REASONS: [Refusal; 21] = [
    Refusal::NoSuchGoroutine,
    Refusal::NotThere,
    Refusal::TableFull,
    Refusal::NoSuchSocket,
    Refusal::NoSuchDescriptor,
    Refusal::FieldOverflow,
    Refusal::InconsistentLock,
    Refusal::DoubleWait,
    Refusal::CloseWithoutUnblock,
    Refusal::AlreadyClosing,
    Refusal::WaiterInside,
    Refusal::ClockGoesBack,
    Refusal::NoTimerDue,
    Refusal::FiringsFull,
    Refusal::NoSuchFiring,
    Refusal::NoRoom,
    Refusal::TooFewBytes,
    Refusal::LastNumber,
    Refusal::SizeOutOfRange,
    Refusal::PeerClosed,
    Refusal::CorruptedDescriptor,
];

/// Returns whether a fault's line is its message followed by a line feed.
fn has_one_text<T: Text + Display + Drop>(alloc: Global, fault: &T) -> Option<bool> {
    let mut out = Sink::new(Vec::new(alloc));
    let is_out = out.print(fault).is_ok();
    let message = fault.to_string(alloc).ok()?;
    let line = out.into_inner();
    let (last, text) = line.as_slice().split_last()?;
    Some(is_out && *last == b'\n' && text == message.as_bytes())
}

#[test]
fn the_message_of_a_text_that_is_not_read_is_its_line(rt: HostRuntime) -> Result<(), Fail> {
    for fault in FAULTS {
        for line in [1, usize::MAX] {
            let fault = ReadFault::Line { line, fault };
            assert_eq!(rt; has_one_text(rt.alloc(), &fault), Some(true), "{fault:?}");
        }
    }
    assert_eq!(rt;
        has_one_text(rt.alloc(), &ReadFault::Memory(AllocError.into())),
        Some(true)
    );
    let last = ReadFault::Line {
        line: usize::MAX,
        fault: Fault::TooManySteps,
    };
    assert_eq!(rt;
        last.to_string(rt.alloc())?.as_str(),
        "line 18446744073709551615: fault 106 too many steps"
    );
    Ok(())
}

#[test]
fn the_message_of_a_recording_that_is_not_loaded_is_its_line(rt: HostRuntime) -> Result<(), Fail> {
    for step in [1, usize::MAX] {
        for reason in REASONS {
            let fault = LoadFault::Refused { step, reason };
            assert_eq!(rt; has_one_text(rt.alloc(), &fault), Some(true), "{fault:?}");
        }
        let fault = LoadFault::OtherAnswer { step };
        assert_eq!(rt; has_one_text(rt.alloc(), &fault), Some(true), "{fault:?}");
    }
    assert_eq!(rt;
        has_one_text(rt.alloc(), &LoadFault::Memory(AllocError.into())),
        Some(true)
    );
    let last = LoadFault::Refused {
        step: usize::MAX,
        reason: Refusal::CorruptedDescriptor,
    };
    assert_eq!(rt;
        last.to_string(rt.alloc())?.as_str(),
        "step 18446744073709551615: fault 107 reason 21"
    );
    Ok(())
}

#[test]
fn what_is_not_made_or_written_says_why(rt: HostRuntime) -> Result<(), Fail> {
    for (fault, message) in [
        (MakeFault::Limit, "a limit is out of its range"),
        (MakeFault::TooManySteps, "more than 1,000,000 steps"),
        (
            MakeFault::Step,
            "a step carries too many bytes, sets the clock below 0 or is not of the version",
        ),
    ] {
        assert_eq!(rt; fault.to_string(rt.alloc())?.as_str(), message);
    }
    for (fault, message) in [
        (WriteFault::Memory(AllocError.into()), "memory"),
        (WriteFault::Device, "device"),
    ] {
        assert_eq!(rt; fault.to_string(rt.alloc())?.as_str(), message);
    }
    Ok(())
}
