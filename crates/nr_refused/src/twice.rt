//! The results of a test, which makes the same call twice: requests for memory may be refused in
//! the first call, and are granted in the second.

/// The result of a call.
#[derive(Clone, Copy, Debug, PartialEq, Eq)]
pub(crate) enum Came {
    /// The expected result.
    Right,
    /// Memory ran out, and the call left unchanged what it had to preserve.
    Refused,
    /// Anything else.
    Wrong,
}

impl Came {
    /// Returns `Right` or `Wrong`.
    pub(crate) fn of(is_right: bool) -> Came {
        if is_right { Came::Right } else { Came::Wrong }
    }

    /// Returns the combined result of two calls.
    pub(crate) fn and(self, other: Came) -> Came {
        match (self, other) {
            (Came::Wrong, _) | (_, Came::Wrong) => Came::Wrong,
            (Came::Refused, _) | (_, Came::Refused) => Came::Refused,
            _ => Came::Right,
        }
    }

    /// Returns this result if the earlier results were right, and otherwise `Wrong`.
    pub(crate) fn behind(self, was_right: bool) -> Came {
        if was_right { self } else { Came::Wrong }
    }

    /// Returns `Wrong` in place of `Refused` if the call changed something that it had to preserve.
    pub(crate) fn leaving(self, as_it_was: bool) -> Came {
        match self {
            Came::Refused if !as_it_was => Came::Wrong,
            came => came,
        }
    }
}

/// The results of two equal calls: requests for memory may be refused in the first, and are granted
/// in the second.
#[derive(Clone, Copy, Debug, PartialEq, Eq)]
pub(crate) struct Twice {
    pub(crate) first: Came,
    pub(crate) again: Came,
}

impl Twice {
    /// Returns the results of a call that got all the memory that it requested, so it isn't
    /// repeated.
    pub(crate) fn once(came: Came) -> Twice {
        Twice {
            first: came,
            again: came,
        }
    }

    /// Returns whether the first call's result was `Right` or `Refused`, and the second call's
    /// result was `Right`.
    pub(crate) fn is_right(self) -> bool {
        self.first != Came::Wrong && self.again == Came::Right
    }

    pub(crate) fn text(self) -> &'static str {
        match (self.first, self.again) {
            (Came::Right, Came::Right) => "right",
            (Came::Refused, Came::Right) => "refused, then right",
            (Came::Wrong, _) => "wrong",
            (_, Came::Wrong) => "wrong with memory",
            (_, Came::Refused) => "refused with memory",
        }
    }
}

/// From now on, requests for memory may be refused.
pub(crate) fn refuse(rt: &HostRuntime) {
    let _printed = println!(rt; "refuse");
}

/// Makes the next request for memory fail, without counting it. This prepares a call that follows a refused one.
pub(crate) fn refuse_next(rt: &HostRuntime) {
    let _printed = println!(rt; "refuse the next");
}

/// From now on, all requests for memory are granted.
pub(crate) fn grant(rt: &HostRuntime) {
    let _printed = println!(rt; "grant");
}
