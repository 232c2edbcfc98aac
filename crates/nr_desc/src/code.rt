//! Wait words as numbers: 0 nil, 1 ready, 2 wait, and for a goroutine its number plus 3.

ghost use Rattle.std.specs.Prelude.{◌≡◌, ◌+◌, ◌<◌, ◌^◌, option_to_list};
ghost use Rattle.nr_rev.specs.Descriptor as spec;
ghost use Rattle.nr_rev.specs.declared.descriptor.WaitWord.TheVariants.{Nil, Ready, Wait, Held};
ghost use Rattle.nr_desc.specs.Auxiliary.Change.{let_go, unblocked_view};
ghost use Rattle.nr_desc.specs.Code.{is_awaited};
ghost use Rattle.nr_desc.specs.Auxiliary.Code.{code_of};

use nr_rev::WaitWord;
use std::marker::Model;

/// A wait word as a number. In contracts, it is the word that the number encodes.
#[derive(Clone, Copy, Debug, PartialEq, Eq)]
pub(crate) struct WordCode(u32);

impl Model for WordCode {
    ghost use Rattle.nr_rev.specs.declared.descriptor.WaitWord.{WaitWord};

    ghost Value = { WaitWord };

    ghost use Rattle.nr_desc.specs.Auxiliary.Code.{code_of, code_of-wait_word_of, wait_word_of};

    ghost view = { λ c. wait_word_of c.0 };

    ghost inverse = { λ word. record { 0 = code_of word } };

    ghost inverse_ok = { λ c h. let same = code_of-wait_word_of c.0 in λ i. record { 0 = same i } };
}

impl WordCode {
    /// Returns the code of the word `nil`.
    #[inline(always)]
    pub(crate) fn nil() -> WordCode
        ensures { result ≡ Nil }
    {
        WordCode(0)
    }

    /// Returns the code of the word `ready`.
    #[inline(always)]
    pub(crate) fn ready() -> WordCode
        ensures { result ≡ Ready }
    {
        WordCode(1)
    }

    /// Returns the code of the word `wait`.
    #[inline(always)]
    pub(crate) fn wait() -> WordCode
        ensures { result ≡ Wait }
    {
        WordCode(2)
    }

    /// Returns the code of a word that holds this goroutine.
    #[inline(always)]
    pub(crate) fn held(goroutine: u32) -> WordCode
        requires { goroutine + 3 < 2 ^ 32 }
        ensures { result ≡ Held goroutine }
    {
        WordCode(goroutine + 3)
    }

    /// Returns the word.
    #[inline(always)]
    pub(crate) fn word(self) -> WaitWord
        ensures { result ≡ self }
    {
        match self.0 {
            0 => WaitWord::Nil,
            1 => WaitWord::Ready,
            2 => WaitWord::Wait,
            code => WaitWord::Held(code - 3),
        }
    }

    /// Returns the number.
    #[inline(always)]
    pub(crate) fn number(self) -> u32
        ensures { result ≡ code_of self }
    {
        self.0
    }

    /// Returns whether a goroutine waits or is about to park.
    #[inline(always)]
    pub(crate) fn is_awaited(self) -> bool
        ensures { result ≡ is_awaited self }
    {
        self.0 > 1
    }

    /// Unblocks the word (Go's `netpollunblock`), and returns it with the goroutine that it held.
    #[inline(always)]
    pub(crate) fn unblocked(self, ioready: bool) -> Unblocked
        ensures viewed { unblocked_view result ≡ spec.unblock self ioready }
        ensures woken { result.woken ≡ let_go self result.word }
    {
        let woken = if self.0 > 2 { Some(self.0 - 3) } else { None };
        let word = if ioready || self.0 == 1 {
            WordCode(1)
        } else {
            WordCode(0)
        };
        Unblocked { word, woken }
    }
}

/// A word, and the goroutine that it held.
#[derive(Clone, Copy)]
pub(crate) struct Unblocked {
    pub(crate) word: WordCode,
    pub(crate) woken: Option<u32>,
}
