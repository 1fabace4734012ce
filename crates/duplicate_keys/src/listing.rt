//! From a JSON text to the paths of its repeated keys.
ghost use Rattle.std.specs.Prelude.{◌≡◌, [], IfOk, map, take, true};
ghost use Rattle.json.specs.Json.{document};
ghost use Rattle.duplicate_keys.specs.Inside.{paths_of};
ghost use Rattle.duplicate_keys.specs.Repeats.{repeated_in_any, told_in};

use crate::told::Told;
use crate::walk::push_in_value;
use json::{Error, Scratch, Value};
use std::alloc::{AllocError, Global};

/// The paths of the keys that stand more than once in one object of a JSON text: for an object first its own, each
/// once, in the order in which they first stand, and then those within its members, in their order, also within one
/// that a later member of its key hides. A path is the keys and the places in arrays (from 0) that lead there, and the
/// repeated key last, joined by `/`. Keys are compared and told without their escapes; of one of over 255 bytes `..`
/// stands for what is behind these. The first hundred are told, as bytes, since a cut may part a character. A text
/// that is no JSON has none. It fails for want of memory alone.
pub fn list_repeated(alloc: Global, text: &[u8]) -> Result<Vec<Vec<u8>>, AllocError>
    ensures { IfOk result (λ paths. map (λ path. path.items) paths.items ≡ told_in text.now) }
{
    match std::str::from_utf8(text) {
        Ok(text) => list_in_text(alloc, text),
        Err(_) => Ok(Vec::new(alloc)),
    }
}

fn list_in_text(alloc: Global, text: &str) -> Result<Vec<Vec<u8>>, AllocError>
    ensures { IfOk result (λ paths. paths_of paths.items ≡ take 100 (repeated_in_any (document text.now))) }
{
    // Nearly every text has none, and to see that costs less than the walk.
    if has_none(alloc, text)? {
        return Ok(Vec::new(alloc));
    }
    list_by_walk(alloc, text)
}

/// Whether nothing is repeated in the text, or it is no JSON.
fn has_none(alloc: Global, text: &str) -> Result<bool, AllocError>
    ensures { IfOk result (λ none. none ≡ true → repeated_in_any (document text.now) ≡ []) }
{
    match Value::parse_strict(alloc, text, &mut Scratch::new(alloc)) {
        Ok(_) => Ok(true),
        Err(Error::Invalid) => Ok(true),
        Err(Error::DuplicateKey) => Ok(false),
        Err(_) => Err(AllocError),
    }
}

fn list_by_walk(alloc: Global, text: &str) -> Result<Vec<Vec<u8>>, AllocError>
    ensures { IfOk result (λ paths. paths_of paths.items ≡ take 100 (repeated_in_any (document text.now))) }
{
    let mut told = Told::new(alloc);
    let mut scratch = Scratch::new(alloc);
    match Value::parse(alloc, text, &mut scratch) {
        Ok(value) => {
            push_in_value(alloc, &value, &mut Vec::new(alloc), &mut told)?;
            Ok(told.into_paths())
        }
        Err(Error::Invalid) => Ok(Vec::new(alloc)),
        Err(_) => Err(AllocError),
    }
}
