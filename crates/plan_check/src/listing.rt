//! What the lines of a plan's text say.
ghost use Rattle.std.specs.Prelude.{◌≡◌, ◌∷◌, ◌+◌, ◌<◌, ◌≤◌, ◌^◌, true, false, MatchOption, length, option_map};
ghost use Rattle.std.specs.List.{list_all};
ghost use Rattle.std.specs.Str.{bytes_eq};
ghost use Rattle.group_tree.specs.Names as names;
ghost use Rattle.rehearse.specs.Commands.{words_of};
ghost use Rattle.plan_check.specs.Listings as model;
ghost use Rattle.plan_check.specs.Listings.{batch_of, bad_line, count_of, is_misnamed};

use crate::lines::{cut_line, cut_word, without_return};
use bounded_io::MAX_INPUT;
use itoa::Buffer;
use std::str;

fn is_heading(word: &[u8], rest: &[u8]) -> bool
    ensures { result ≡ model.is_heading word.now (words_of rest.now) }
{
    match cut_word(rest) {
        Some((second, _)) => word == b"plan".as_slice() && starts_number(second),
        None => false,
    }
}

fn starts_number(word: &[u8]) -> bool
    ensures { result ≡ model.starts_number word.now }
{
    word.starts_with(b"batches=".as_slice())
}

/// Whether a line of words says nothing of batches, where so many stand before it.
fn is_passed(count: usize, word: &[u8], rest: &[u8]) -> bool
    ensures { result ≡ model.is_passed count word.now (words_of rest.now) }
{
    word == b"held:".as_slice() || (count == 0 && is_heading(word, rest))
}

/// Whether the word is the number and a colon.
fn is_label(word: &[u8], number: usize) -> bool
    ensures { result ≡ bytes_eq word.now (model.label number) }
{
    match word.strip_suffix(b":".as_slice()) {
        Some(digits) => digits == Buffer::new().format(number).as_bytes(),
        None => false,
    }
}

/// The names in a line that is the batch of this number.
fn names_in<'t>(number: usize, line: &'t [u8], word: &[u8], rest: &'t [u8]) -> &'t [u8]
    requires { words_of line.now ≡ word.now ∷ words_of rest.now }
    ensures { words_of result.now ≡ model.names_in number word.now (words_of rest.now) }
{
    match cut_word(rest) {
        Some((second, behind)) if word == b"batch".as_slice() && is_label(second, number) => behind,
        _ => line,
    }
}

/// The names in the batch that a line says behind so many batches, if it says one.
pub(crate) fn batch_in(count: usize, line: &[u8]) -> Option<&[u8]>
    requires { count < 2 ^ 63 }
    ensures { option_map (λ names. words_of names.now) result ≡ batch_of count line.now }
{
    let line = without_return(line);
    let (word, rest) = cut_word(line)?;
    if is_passed(count, word, rest) {
        None
    } else {
        Some(names_in(count + 1, line, word, rest))
    }
}

/// Whether the word can name a host.
fn is_name(word: &[u8]) -> bool
    ensures { result ≡ names.is_name word.now }
{
    match str::from_utf8(word) {
        Ok(name) => group_tree::is_name(name),
        Err(_) => false,
    }
}

fn are_names(words: &[u8]) -> bool
    ensures { result ≡ list_all names.is_name (words_of words.now) }
{
    let mut left = words;
    while let Some((word, rest)) = cut_word(left) {
        if !is_name(word) {
            return false;
        }
        left = rest;
    }
    true
}

/// How many batches there are behind a line that stands behind so many; nothing where it says one with a word that is no name.
fn count_behind(count: usize, line: &[u8]) -> Option<usize>
    requires { count < 2 ^ 63 }
    ensures { MatchOption result (is_misnamed (batch_of count line.now) ≡ true)
        (λ after. (is_misnamed (batch_of count line.now) ≡ false) × (after ≡ count + count_of (batch_of count line.now))) }
{
    match batch_in(count, line) {
        Some(names) if are_names(names) => Some(count + 1),
        Some(_) => None,
        None => Some(count),
    }
}

/// The number of the first line that is none of a plan.
pub(crate) fn find_bad_line(text: &[u8]) -> Option<usize>
    requires { length text.now ≤ MAX_INPUT }
    ensures { result ≡ bad_line text.now }
{
    let mut left = Some(text);
    let mut number = 1;
    let mut count = 0;
    while let Some(bytes) = left {
        let (line, rest) = cut_line(bytes);
        let Some(after) = count_behind(count, line) else {
            return Some(number);
        };
        count = after;
        number += 1;
        left = rest;
    }
    None
}
