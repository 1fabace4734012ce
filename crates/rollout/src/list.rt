//! Values of options that are lists.
ghost use Rattle.std.specs.Prelude.{◌≡◌};
ghost use Rattle.rollout.specs.Lists.{IsListFault, given_list};

use crate::fault::Fault;
use std::alloc::Global;

/// The fault of a value that is no list of what its option lists.
pub fn bad_list(alloc: Global, list: &str) -> Fault
    ensures { IsListFault list.now result }
{
    match String::from_str(alloc, without_comma(list)) {
        Ok(list) => Fault::BadList { list },
        Err(_refused) => Fault::Memory,
    }
}

/// The list without the comma that stands at its end where lists were joined.
fn without_comma(list: &str) -> &str
    ensures { result.now ≡ given_list list.now }
{
    match list.strip_suffix(',') {
        Some(front) => front,
        None => list,
    }
}
