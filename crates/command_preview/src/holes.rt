//! The names under which the steps of a file register results.
ghost use Rattle.command_preview.specs.Holes.{AreHoles};

use crate::hole::{Hole, WHOLE, place_of, texts_of};
use indexmap::IndexMap;
use play_model::{Play, Step};
use std::alloc::{AllocError, Global};
use text_syntax::Ref;

/// Names, each once. They are lent by the plays.
#[derive(Drop)]
pub(crate) struct Holes<'p> {
    names: IndexMap<&'p str, Hole>,
    ghost are: { AreHoles names },
}

impl<'p> Holes<'p> {
    ghost use Rattle.std.specs.Prelude.{◌≡◌, ◌<◌, ◌≤◌, ◌+◌, ◌-◌, ◌^◌, ◌||◌, ◌&&◌, ℕ, IfOk, OnOk, Some, None, cond, length, nat_lt, option_map, take};
    ghost use Rattle.group_tree.specs.Names.{Name};
    ghost use Rattle.fleet_index.specs.NumberLists.{list_at};
    ghost use Rattle.host_track.specs.Summaries.{does_register};
    ghost use Rattle.text_syntax.specs.Seen.{ref_said};
    ghost use Rattle.command_preview.specs.Unsure.{is_registered};
    ghost use Rattle.command_preview.specs.Previews.{hole_for};
    ghost use Rattle.command_preview.specs.Inside.{AreHolesOf};
    ghost use Rattle.command_preview.specs.Holes.{hole_texts, is_kept_before};

    /// Those that the steps of these plays register, tasks and handlers. It fails for want of memory alone.
    pub(crate) fn of(alloc: Global, plays: &'p [Play]) -> Result<Holes<'p>, AllocError>
        requires few { length plays.now ≤ 16 }
        ensures { IfOk result (λ holes. AreHolesOf holes.names plays.now) }
    {
        let mut holes = Holes {
            names: IndexMap::new(alloc),
        };
        let mut since = 0;
        for play in plays {
            holes.add_all(alloc, since, play.steps())?;
            since += play.steps().len();
        }
        Ok(holes)
    }

    /// Whether one of the first so many steps of the file registers the name.
    pub(crate) fn has(&self, count: usize, name: &str) -> bool
        ensures { result ≡ is_kept_before self.now.names count name.now }
    {
        match self.names.get(name) {
            Some(hole) => hole.since < count,
            None => false,
        }
    }

    /// The text of a hole, where one of the first so many steps of the file registers the name in it.
    pub(crate) fn text(&self, count: usize, of: Ref<'_>) -> Option<&str>
        ensures { option_map (λ text. text.now) result ≡ hole_for (is_kept_before self.now.names count) (ref_said of.entry) }
    {
        match of {
            Ref::Whole(name) => self.text_at(count, name, WHOLE),
            Ref::Field(name, field) => self.text_at(count, name, place_of(field)),
            Ref::Hostname => None,
        }
    }

    fn text_at(&self, count: usize, name: &str, place: usize) -> Option<&str>
        requires { place < 7 }
        ensures { option_map (λ text. text.now) result
            ≡ cond (is_kept_before self.now.names count name.now) (Some (list_at (hole_texts name.now) place)) None }
    {
        match self.names.get(name) {
            Some(hole) if hole.since < count => Some(hole.texts.at(place)),
            _ => None,
        }
    }

    /// Adds the names that these steps register, behind so many steps.
    fn add_all(&mut self, alloc: Global, since: usize, steps: &'p [Step]) -> Result<(), AllocError>
        requires few { since + length steps.now < 2 ^ 63 }
        ensures { OnOk result ((count : ℕ) (name : Name) → is_kept_before self.new.names count name
            ≡ (is_kept_before self.old.names count name || is_registered (take (count - since) steps.now) name)) }
    {
        for place in 0..steps.len() {
            self.add(alloc, since + place, &steps[place])?;
        }
        Ok(())
    }

    /// Adds the name that a step registers behind so many steps, if it registers one that no step before it does.
    fn add(&mut self, alloc: Global, since: usize, step: &'p Step) -> Result<(), AllocError>
        ensures { OnOk result ((count : ℕ) (name : Name) → is_kept_before self.new.names count name
            ≡ (is_kept_before self.old.names count name || (nat_lt since count && does_register name step.now))) }
    {
        if let Some(register) = &step.register {
            if !self.has(since, register.as_str()) {
                let texts = texts_of(alloc, register.as_str())?;
                self.names.insert(register.as_str(), Hole { since, texts })?;
            }
        }
        Ok(())
    }
}
