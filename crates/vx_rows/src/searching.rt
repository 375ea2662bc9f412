//! Whether a text matches the items of a pattern: the leftmost place of each piece between two `%`, and the end of the text for the
//! last piece.
//!
//! The leftmost place is as good as any other. What follows a `%` matches a text if it matches any suffix of it, and the characters
//! behind a later place are a suffix of those behind the leftmost one. So no place is tried again.

ghost use Rattle.std.specs.List.{list_all};
ghost use Rattle.std.specs.Prelude.{◌≡◌, ◌<◌, ◌≤◌, ◌+◌, ◌++◌, ◌∷◌, ℕ, IfSome, IsTrue, List, MatchOption, drop, false, length, map, take, true};
ghost use Rattle.vx_rows.specs.Items.{first_passes, fits_char, plain_item, starts, takes, takes_one};
ghost use Rattle.vx_rules.specs.Patterns.{PatternItem, any_run, matches};

use crate::character::Character;
use crate::pattern::Item;

/// Whether a text matches items.
///
/// A text that differs in front of the first `%` is told by its first characters.
pub(crate) fn matches<C: Character>(items: &[Item], text: &[C]) -> bool
    ensures { result ≡ matches (map plain_item items.now) (map C.code text.now) }
{
    let Some(count) = fitting(items, text) else {
        return false;
    };
    if count == items.len() {
        return text.len() == count;
    }
    some_suffix_matches(&items[count + 1..], &text[count..])
}

// How many items are in front of the first that is any characters, each of which fits one character of the text; None where one of
// them doesn't.
fn fitting<C: Character>(items: &[Item], text: &[C]) -> Option<usize>
    ensures in_items { IfSome result (λ count. count ≤ length items.now) }
    ensures in_text { IfSome result (λ count. count ≤ length text.now) }
    ensures run { IfSome result (λ count. count < length items.now → drop count (map plain_item items.now) ≡ any_run ∷ drop (count + 1) (map plain_item items.now)) }
    ensures same { MatchOption result (matches (map plain_item items.now) (map C.code text.now) ≡ false) (λ count. matches (map plain_item items.now) (map C.code text.now) ≡ matches (drop count (map plain_item items.now)) (drop count (map C.code text.now))) }
{
    for place in 0..items.len() {
        let wanted = match items[place] {
            Item::AnyRun => return Some(place),
            Item::AnyChar => None,
            Item::Exactly(wanted) => Some(wanted),
        };
        if !fits_at(text, place, wanted) {
            return None;
        }
    }
    Some(items.len())
}

// Whether there is a character at a place, and it is the wanted one or any is.
#[inline(always)]
fn fits_at<C: Character>(text: &[C], place: usize, wanted: Option<char>) -> bool
    ensures { result ≡ first_passes (fits_char wanted) (drop place (map C.code text.now)) }
{
    place < text.len() && text[place].fits(wanted)
}

// Whether some suffix of a text matches items.
fn some_suffix_matches<C: Character>(items: &[Item], text: &[C]) -> bool
    ensures { result ≡ matches (any_run ∷ map plain_item items.now) (map C.code text.now) }
{
    let mut left = items;
    let mut rest = text;
    loop {
        let count = before_run(left);
        if count == left.len() {
            return ends_with(left, rest);
        }
        match behind_leftmost(&left[..count], rest) {
            Some(end) => {
                rest = &rest[end..];
                left = &left[count + 1..];
            }
            None => return false,
        }
    }
}

// How many items are in front of the first that is any characters: a piece.
fn before_run(items: &[Item]) -> usize
    ensures most { result ≤ length items.now }
    ensures ones { IsTrue (list_all takes_one (take result (map plain_item items.now))) }
    ensures run { result < length items.now → drop result (map plain_item items.now) ≡ any_run ∷ drop (result + 1) (map plain_item items.now) }
{
    for place in 0..items.len() {
        if !takes_one(items[place]) {
            return place;
        }
    }
    items.len()
}

// Whether an item takes one character, whichever it is.
fn takes_one(item: Item) -> bool
    ensures { result ≡ takes_one (plain_item item) }
{
    match item {
        Item::AnyRun => false,
        Item::AnyChar | Item::Exactly(_) => true,
    }
}

// Whether a text ends with characters that a piece fits.
fn ends_with<C: Character>(piece: &[Item], text: &[C]) -> bool
    requires { IsTrue (list_all takes_one (map plain_item piece.now)) }
    ensures { result ≡ matches (any_run ∷ map plain_item piece.now) (map C.code text.now) }
{
    if text.len() < piece.len() {
        return false;
    }
    starts_with(piece, &text[text.len() - piece.len()..])
}

// Behind the leftmost place of a text at which a piece fits; None where it fits nowhere.
fn behind_leftmost<C: Character>(piece: &[Item], text: &[C]) -> Option<usize>
    requires { IsTrue (list_all takes_one (map plain_item piece.now)) }
    ensures in_text { IfSome result (λ end. end ≤ length text.now) }
    ensures same { (rest : List PatternItem) → MatchOption result (matches (any_run ∷ map plain_item piece.now ++ any_run ∷ rest) (map C.code text.now) ≡ false) (λ end. matches (any_run ∷ map plain_item piece.now ++ any_run ∷ rest) (map C.code text.now) ≡ matches (any_run ∷ rest) (drop end (map C.code text.now))) }
{
    match leftmost(piece, text) {
        Some(place) => Some(place + piece.len()),
        None => None,
    }
}

// The leftmost place of a text at which a piece fits.
fn leftmost<C: Character>(piece: &[Item], text: &[C]) -> Option<usize>
    ensures in_text { IfSome result (λ place. place + length piece.now ≤ length text.now) }
    ensures before { IfSome result (λ place. (k : ℕ) → k < place → starts (map plain_item piece.now) (drop k (map C.code text.now)) ≡ false) }
    ensures there { MatchOption result ((k : ℕ) → starts (map plain_item piece.now) (drop k (map C.code text.now)) ≡ false) (λ place. starts (map plain_item piece.now) (drop place (map C.code text.now)) ≡ true) }
{
    if piece.len() == 0 {
        return Some(0);
    }
    if text.len() < piece.len() {
        return None;
    }
    let first = wanted_by(piece[0]);
    for place in 0..text.len() - piece.len() + 1 {
        if text[place].fits(first) && starts_with(piece, &text[place..]) {
            return Some(place);
        }
    }
    None
}

// What an item wants a character to be; None is wanted of any.
fn wanted_by(item: Item) -> Option<char>
    ensures { (c : ℕ) → fits_char result c ≡ false → takes (plain_item item) c ≡ false }
{
    match item {
        Item::Exactly(wanted) => Some(wanted),
        _ => None,
    }
}

// Whether a piece fits the first characters of a text.
fn starts_with<C: Character>(piece: &[Item], text: &[C]) -> bool
    requires { length piece.now ≤ length text.now }
    ensures { result ≡ starts (map plain_item piece.now) (map C.code text.now) }
{
    for place in 0..piece.len() {
        if !takes(piece[place], text[place]) {
            return false;
        }
    }
    true
}

// Whether an item takes one character, and this one.
#[inline(always)]
fn takes<C: Character>(item: Item, found: C) -> bool
    ensures { result ≡ takes (plain_item item) (C.code found) }
{
    match item {
        Item::AnyRun => false,
        Item::AnyChar => true,
        Item::Exactly(wanted) => found.fits(Some(wanted)),
    }
}
