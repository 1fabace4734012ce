//! What others see of a board.
ghost use Rattle.std.specs.Prelude.{◌≡◌, ◌<◌, ◌≤◌, [], count_by, length};
ghost use Rattle.fleet_states.specs.Statuses.{NobodyRuns, down_count, status_at};
ghost use Rattle.fleet_states.specs.Groups.{IsSafe, group_at, groups_of};
ghost use Rattle.domains.specs.Ids.{host_numbers};
ghost use Rattle.host_track.specs.Tracks.{counts_in};
ghost use Rattle.event_log.specs.States.{between, failures, start_state};
ghost use Rattle.event_log.specs.Logs.{IsLegal};
ghost use Rattle.event_log.specs.Works.{is_awaited_in, phase_of};
ghost use Rattle.roll_core.specs.Views.{FrontsAreSafe, RestsAtBoundaries, events_of, roll_of, state_of};
ghost use Rattle.roll_core.specs.Boards.{reports_in};
ghost use Rattle.event_log.specs.Told.{AreTold};

use crate::board::Board;
use crate::event::Event;
use crate::moment::Moment;
use crate::observer::Observer;
use crate::runner::Runner;
use domains::Fleet;
use event_log::Stage;
use fleet_states::Status;
use group_tree::{GroupId, HostId};
use host_track::Counts;
use host_vars::Vars;
use play_model::Play;
use std::sync::ledger::Ledger;

impl<'f, R: Runner, L: Ledger, W: Observer> Board<'f, R, L, W> {
    /// All events, the oldest first.
    pub fn log(&self) -> &[Event]
        ensures value { events_of result.now ≡ self.now.kernel.log }
        ensures all { length self.now.kernel.start ≡ length self.now.kernel.fleet.hosts }
        ensures legal { IsLegal (roll_of self.now.kernel) (start_state (roll_of self.now.kernel)) self.now.kernel.log }
        ensures safe { FrontsAreSafe (roll_of self.now.kernel) self.now.kernel.log }
        ensures rests { RestsAtBoundaries (roll_of self.now.kernel) self.now.kernel.log }
        ensures told { AreTold (R.may self.now.context.runner) (roll_of self.now.kernel) (start_state (roll_of self.now.kernel)) self.now.kernel.log }
    {
        self.kernel.log()
    }

    /// The board as it stands, and can't move on as long as this is held.
    pub fn moment(&self) -> Moment<'_>
        ensures { result ≡ self.now.kernel.log }
    {
        Moment::of(self.log())
    }

    pub fn fleet(&self) -> &'f Fleet
        ensures { result.now ≡ self.now.kernel.fleet }
    {
        self.kernel.fleet()
    }

    pub fn play(&self) -> &'f Play
        ensures { result.now ≡ self.now.kernel.play }
    {
        self.kernel.play()
    }

    pub fn runner(&self) -> &'f R
        ensures { result.now ≡ self.now.context.runner }
    {
        self.runner
    }

    /// How many claims may be out at once.
    pub fn forks(&self) -> usize
        ensures value { result ≡ self.now.kernel.forks }
        ensures some { 0 < result }
        ensures few { result ≤ 64 }
    {
        self.kernel.forks()
    }

    /// The status of each host at the start, and its variables then.
    pub fn opening(&self) -> (&'f [Status], &'f [Vars])
        ensures start { result.0.now ≡ self.now.kernel.start }
        ensures vars { result.1.now ≡ self.now.kernel.vars }
    {
        self.kernel.opening()
    }

    /// The status of a host now; a number that no host has is idle.
    pub fn status(&self, host: HostId) -> Status
        ensures { result ≡ status_at (state_of self.now.kernel).statuses host.index }
    {
        self.kernel.status(host)
    }

    /// The status of each host now. No group is over its limit, and nobody runs where no batch is open.
    pub fn statuses(&self) -> &[Status]
        ensures value { result.now ≡ (state_of self.now.kernel).statuses }
        ensures all { length result.now ≡ length self.now.kernel.fleet.hosts }
        ensures safe { IsSafe (groups_of self.now.kernel.fleet) result.now }
        ensures rests { (state_of self.now.kernel).phase ≡ between → NobodyRuns result.now }
    {
        self.kernel.statuses()
    }

    /// The hosts of the open batch, in its order; none where no batch is open.
    pub fn batch(&self) -> &[HostId]
        ensures { host_numbers result.now ≡ (state_of self.now.kernel).batch }
    {
        self.kernel.batch()
    }

    /// How many hosts of the open batch have failed until now. Time linear in the batch.
    pub fn failures(&self) -> usize
        ensures { result ≡ failures (state_of self.now.kernel) }
    {
        self.kernel.failures()
    }

    /// How many of the group's members are down now: the number that its limit bounds. Near-constant time for a group that has a
    /// limit; the members of another are counted.
    pub fn down(&self, group: GroupId) -> u32
        ensures { result ≡ down_count (state_of self.now.kernel).statuses (group_at (groups_of self.now.kernel.fleet) group.index).members }
    {
        self.kernel.down(group)
    }

    /// How far the roll is: no batch is open, or the open one is at a step, or at its end.
    pub fn stage(&self) -> Stage
        ensures { phase_of result ≡ (state_of self.now.kernel).phase }
    {
        self.kernel.stage()
    }

    /// How the rows of a host are judged until now; a number that no host has has none.
    pub fn counts(&self, host: HostId) -> Counts
        ensures value { host.index < length self.now.kernel.start → result ≡ counts_in ((state_of self.now.kernel).rows host.index) }
        ensures none { length self.now.kernel.start ≤ host.index → result ≡ counts_in [] }
    {
        self.kernel.counts(host)
    }

    /// How many hosts of the batch have not reported the present step, which is due on them. Time linear in the batch.
    pub fn due(&self) -> usize
        ensures { result ≡ count_by (is_awaited_in (roll_of self.now.kernel) (state_of self.now.kernel)) (state_of self.now.kernel).batch }
    {
        self.kernel.due()
    }

    /// How many claims are out.
    pub fn out(&self) -> usize
        ensures { result ≡ length (state_of self.now.kernel).out }
    {
        self.kernel.out()
    }

    /// How many tallies are out. Where none is, those that came back have counted each report of the log.
    pub fn tallies(&self) -> usize
        ensures value { result ≡ self.now.tallies }
        ensures few { result ≤ 128 }
        ensures all { self.now.tallies ≡ 0 → self.now.joined ≡ reports_in self.now.kernel.log }
    {
        self.tallies
    }

    /// How many reports the tallies had counted that came back.
    pub fn joined(&self) -> usize
        ensures { result ≡ self.now.joined }
    {
        self.joined
    }
}
