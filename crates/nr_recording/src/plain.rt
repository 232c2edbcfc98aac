//! Reads the parts of a line that is an array of texts and unsigned numbers in the usual spelling.

ghost use Rattle.std.specs.Prelude.{◌≡◌, ◌<◌, ◌≤◌, ◌+◌, ◌++◌, ◌∷◌, [], ℕ, true, false, decimal, length, slice_index, Ok, Some, IfSome, OnSome};
ghost use Rattle.json.specs.Token.{string, number};
ghost use Rattle.serde_json.specs.Data.{array};
ghost use Rattle.nr_recording.specs.Part.{parts_data};
ghost use Rattle.nr_recording.specs.Plain.{Begins, ReadsBack, ends_item, items_after_comma, items_behind, part_tokens};
ghost use Rattle.nr_recording.specs.Reading.{value_of};
ghost use Rattle.serde_json.specs.Read.{read};

use crate::part::{Part, PartList};
use memchr::memchr2;

// Returns the value of a byte that is an ASCII digit.
#[inline(always)]
fn digit(byte: u8) -> Option<u64>
    ensures { IfSome result (λ d. (d < 10) × (byte ≡ 48 + d)) }
{
    if byte.is_ascii_digit() {
        Some(u64::from(byte - b'0'))
    } else {
        None
    }
}

// Appends a digit to a number. Returns `None` if the result exceeds 64 bits.
#[inline(always)]
fn with_digit(number: u64, digit: u64) -> Option<u64>
    requires some { 0 < number }
    requires digit { digit < 10 }
    ensures number { IfSome result (λ n. decimal n ≡ decimal number ++ (48 + digit) ∷ []) }
    ensures some { IfSome result (λ n. 0 < n) }
{
    number.checked_mul(10)?.checked_add(digit)
}

// Returns the number that the digits at the beginning of a text denote, and the rest of the text.
fn digits(text: &[u8]) -> Option<(u64, &[u8])>
    ensures number { IfSome result (λ r. text.now ≡ decimal r.0 ++ r.1.now) }
    ensures shorter { IfSome result (λ r. length r.1.now < length text.now) }
{
    let [first, rest @ ..] = text else {
        return None;
    };
    let mut number = digit(*first)?;
    if number == 0 {
        return Some((0, rest));
    }
    let mut left = rest;
    while let [byte, rest @ ..] = left {
        let Some(digit) = digit(*byte) else {
            return Some((number, left));
        };
        number = with_digit(number, digit)?;
        left = rest;
    }
    Some((number, left))
}

// Returns whether a comma or the bracket that closes an array comes next in the text.
#[inline(always)]
fn ends_item(text: &[u8]) -> bool
    ensures { result ≡ ends_item text.now }
{
    matches!(text.first(), Some(b',' | b']'))
}

// Reads an unsigned number that is an array item. Returns it and the rest of the text.
#[inline(always)]
fn number(text: &[u8]) -> Option<(u64, &[u8])>
    ensures begins { IfSome result (λ r. Begins text.now (number (decimal r.0) ∷ []) r.1.now) }
    ensures shorter { IfSome result (λ r. length r.1.now < length text.now) }
{
    let (number, left) = digits(text)?;
    if ends_item(left) {
        Some((number, left))
    } else {
        None
    }
}

// Returns whether the bytes contain an ASCII control character, which JSON has to escape.
#[inline(always)]
fn has_control(bytes: &[u8]) -> bool
    ensures { result ≡ false → (k : ℕ) → k < length bytes.now → 32 ≤ slice_index bytes.now k }
{
    let mut found = false;
    for byte in bytes {
        found |= *byte < b' ';
    }
    found
}

// Reads a JSON string without escapes that is an array item. Returns its contents and the rest of
// the text.
#[inline(always)]
fn text(text: &[u8]) -> Option<(&[u8], &[u8])>
    ensures begins { IfSome result (λ r. Begins text.now (string r.0.now ∷ []) r.1.now) }
    ensures shorter { IfSome result (λ r. length r.1.now < length text.now) }
{
    let [b'"', inside @ ..] = text else {
        return None;
    };
    let len = memchr2(b'"', b'\\', inside)?;
    let (word, behind) = inside.split_at(len);
    let [b'"', left @ ..] = behind else {
        return None;
    };
    if has_control(word) {
        return None;
    }
    if ends_item(left) {
        Some((word, left))
    } else {
        None
    }
}

// Returns the text from the next item on, after a comma and at most one space.
#[inline(always)]
fn next_item(behind: &[u8]) -> Option<&[u8]>
    ensures begins { IfSome result (λ r. items_behind behind.now ≡ items_after_comma r.now) }
    ensures shorter { IfSome result (λ r. length r.now < length behind.now) }
{
    match behind {
        [b',', b' ', rest @ ..] => Some(rest),
        [b',', rest @ ..] => Some(rest),
        _ => None,
    }
}

// Reads a text and a number, up to the closing bracket; the opening bracket has already been read.
// Returns the pair and the rest of the text.
#[inline(always)]
fn pair(inside: &[u8]) -> Option<(Part<'_>, &[u8])>
    ensures begins { IfSome result (λ r. Begins (91 ∷ inside.now) (part_tokens r.0) r.1.now) }
    ensures reads_back { IfSome result (λ r. ReadsBack r.0) }
    ensures shorter { IfSome result (λ r. length r.1.now < length inside.now) }
{
    let (word, behind) = text(inside)?;
    let (count, behind) = number(next_item(behind)?)?;
    let [b']', left @ ..] = behind else {
        return None;
    };
    Some((Part::Pair(word, count), left))
}

// Returns a part of an array, and the rest of the text.
#[inline(always)]
fn part(line: &[u8]) -> Option<(Part<'_>, &[u8])>
    ensures begins { IfSome result (λ r. Begins line.now (part_tokens r.0) r.1.now) }
    ensures reads_back { IfSome result (λ r. ReadsBack r.0) }
    ensures shorter { IfSome result (λ r. length r.1.now < length line.now) }
{
    match line {
        [b'"', ..] => {
            let (word, left) = text(line)?;
            Some((Part::Text(word), left))
        }
        [b'[', inside @ ..] => pair(inside),
        _ => {
            let (count, left) = number(line)?;
            Some((Part::Number(count), left))
        }
    }
}

// Returns true only if the rest of the line is the bracket that closes the array.
#[inline(always)]
fn closes_line(behind: &[u8]) -> bool
    ensures { result ≡ true → behind.now ≡ 93 ∷ [] }
{
    behind == b"]".as_slice()
}

// Gathers the parts of an array whose opening bracket has already been read. Returns `None` unless
// the closing bracket ends the line.
fn gather<'a>(inside: &'a [u8], parts: &mut PartList<'a>) -> Option<()>
    requires { parts.old.items ≡ [] }
    ensures { OnSome result (read (91 ∷ inside.now) ≡ Some (array (parts_data parts.new.items))) }
{
    let mut left = inside;
    loop {
        let (part, behind) = part(left)?;
        parts.try_push(part).ok()?;
        if closes_line(behind) {
            return Some(());
        }
        left = next_item(behind)?;
    }
}

/// Gathers the parts of a line that is an array of one to six parts: texts, unsigned numbers, and
/// pairs of a text and a number. The line must be ASCII, without escapes, and without spaces except
/// after commas. Returns `None` for any other line.
pub(crate) fn gather_plain<'a>(line: &'a [u8], parts: &mut PartList<'a>) -> Option<()>
    requires { parts.old.items ≡ [] }
    ensures { OnSome result (value_of line.now ≡ Ok (array (parts_data parts.new.items))) }
{
    if !line.is_ascii() {
        return None;
    }
    let [b'[', inside @ ..] = line else {
        return None;
    };
    gather(inside, parts)?;
    Some(())
}
