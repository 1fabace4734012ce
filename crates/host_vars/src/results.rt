//! The registered results of a host.
ghost use Rattle.std.specs.Prelude.{◌≡◌, Some, cond, ◌||◌, IfOk, IsTrue, OnErr, OnOk};
ghost use Rattle.std.specs.Arc.{arc_value};
ghost use Rattle.group_tree.specs.Names.{Name, same_name};
ghost use Rattle.play_model.specs.Results.{row_of};
ghost use Rattle.host_vars.specs.HostVars.{variables_of, has_place_in, result_in, BeginsPlay, IsSameHost};

use crate::vars::Vars;
use play_model::{Registered, Registers};
use std::alloc::{AllocError, Global};
use std::sync::Arc;

impl Vars {
    /// Makes a place for a result under the name, so that registering takes no memory. No result is changed, and where
    /// memory is refused, no place is made or lost.
    pub fn reserve(&mut self, alloc: Global, name: &str) -> Result<(), AllocError>
        ensures place { OnOk result ((other : Name) → has_place_in self.new other
            ≡ (same_name name.now other || has_place_in self.old other)) }
        ensures refused { OnErr result ((other : Name) → has_place_in self.new other ≡ has_place_in self.old other) }
        ensures results { (other : Name) → result_in self.new other ≡ result_in self.old other }
        ensures variables { variables_of self.new ≡ variables_of self.old }
        ensures owes { self.new.owes ≡ self.old.owes }
    {
        self.results.reserve(alloc, name)
    }

    /// Registers a result under a name that has a place, in place of one that stood there. It takes no memory.
    pub fn register(&mut self, name: &str, registered: Registered)
        requires { IsTrue (has_place_in self.old name.now) }
        ensures place { (other : Name) → has_place_in self.new other ≡ has_place_in self.old other }
        ensures results { (other : Name) → result_in self.new other
            ≡ cond (same_name name.now other) (Some (row_of registered)) (result_in self.old other) }
        ensures variables { variables_of self.new ≡ variables_of self.old }
        ensures owes { self.new.owes ≡ self.old.owes }
    {
        self.results.register(name, registered);
    }

    /// The same host: its variables, which are shared and not copied, a copy of each result, and what it owes. It fails for want of memory alone.
    pub fn copy(&self, alloc: Global) -> Result<Vars, AllocError>
        ensures { IfOk result (λ copy. IsSameHost copy self.now) }
    {
        Ok(Vars {
            variables: Arc::try_clone(&self.variables)?,
            results: self.results.copy(alloc)?,
            owes: self.owes,
        })
    }

    /// The host as it begins a play with these registers: its variables, which are shared and not copied, a copy of each result, and a
    /// place for each register; and it owes what it owed. It fails for want of memory alone.
    pub fn begin_play(&self, alloc: Global, registers: &Arc<Registers>) -> Result<Vars, AllocError>
        ensures { IfOk result (λ begun. BeginsPlay (arc_value registers.now) begun self.now) }
    {
        Ok(Vars {
            variables: Arc::try_clone(&self.variables)?,
            results: self.results.begin_play(alloc, registers)?,
            owes: self.owes,
        })
    }
}
