//! The names under which the steps of a play register results.
ghost use Rattle.std.specs.Prelude.{◌≡◌, ◌<◌, ◌≤◌, ◌||◌, ◌&&◌, ◌^◌, ℕ, IfOk, OnOk, length, nat_lt};
ghost use Rattle.group_tree.specs.Names.{Name};
ghost use Rattle.host_track.specs.Summaries.{does_register};
ghost use Rattle.undefined_names.specs.Places.{ArePlacesOf, is_kept_before};

use indexmap::IndexMap;
use play_model::Step;
use std::alloc::{AllocError, Global};

/// Names, each with the place of the first step that registers its result under it. They are lent by the play.
#[derive(Drop)]
pub(crate) struct Places<'p> {
    pub(crate) names: IndexMap<&'p str, usize>,
}

/// Whether the step registers its result under the name.
pub(crate) fn registers(name: &str, step: &Step) -> bool
    ensures { result ≡ does_register name.now step.now }
{
    match &step.register {
        Some(register) => register.as_str() == name,
        None => false,
    }
}

impl<'p> Places<'p> {
    /// Those of these steps. It fails for want of memory alone.
    pub(crate) fn of(alloc: Global, steps: &'p [Step]) -> Result<Places<'p>, AllocError>
        ensures { IfOk result (λ places. ArePlacesOf places.names steps.now) }
    {
        let mut places = Places {
            names: IndexMap::new(alloc),
        };
        for place in 0..steps.len() {
            places.add(place, &steps[place])?;
        }
        Ok(places)
    }

    /// Whether one of the first so many steps registers the name.
    pub(crate) fn has(&self, count: usize, name: &str) -> bool
        ensures { result ≡ is_kept_before self.now.names count name.now }
    {
        match self.names.get(name) {
            Some(place) => *place < count,
            None => false,
        }
    }

    /// Adds the name that the step at this place registers, if it registers one that no step before it does.
    fn add(&mut self, place: usize, step: &'p Step) -> Result<(), AllocError>
        ensures { OnOk result ((count : ℕ) (name : Name) → is_kept_before self.new.names count name
            ≡ (is_kept_before self.old.names count name || (nat_lt place count && does_register name step.now))) }
    {
        if let Some(register) = &step.register {
            if !self.has(place, register.as_str()) {
                self.names.insert(register.as_str(), place)?;
            }
        }
        Ok(())
    }
}
