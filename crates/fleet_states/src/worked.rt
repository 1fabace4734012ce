//! The definitions, checked on a small fleet: each clause computes.
ghost use Rattle.std.specs.Prelude.{◌≡◌, IsTrue, IsFalse, None, Some, [], ◌∷◌, map, true, false};
ghost use Rattle.fleet_states.specs.declared.status.Status.TheVariants.{Idle, Waiting, Running, Updated, Failed, Halted, Off, Held};
ghost use Rattle.fleet_states.specs.Statuses.{are_ready, changed, down_count, is_down, is_running, is_waiting, waiting_count};
ghost use Rattle.fleet_states.specs.Groups.{FleetGroup, group_at, groups_of, is_full_for, is_over, lacks_room, members_among, room};
ghost use Rattle.fleet_states.specs.Starts.{start_statuses};
ghost use Rattle.fleet_states.specs.Worked.{two_racks};

/// A host that is up counts against no limit. A held host is up and does not wait.
fn a_held_host_is_up()
    ensures down { map is_down (Idle ∷ Waiting ∷ Running ∷ Updated ∷ Failed ∷ Halted ∷ Off ∷ Held ∷ [])
        ≡ false ∷ false ∷ true ∷ false ∷ true ∷ true ∷ true ∷ false ∷ [] }
    ensures waiting { IsFalse (is_waiting Held) }
    ensures running { IsFalse (is_running Held) }
{}

/// Off takes precedence over waiting, and a host outside the run is idle.
fn an_off_host_does_not_wait()
    ensures { start_statuses two_racks (1 ∷ 2 ∷ 9 ∷ []) ≡ Idle ∷ Off ∷ Waiting ∷ Idle ∷ [] }
{}

/// A group without a limit has an entry in the list too, and room for all its members.
fn room_is_what_a_limit_leaves()
    ensures limits { map (λ (group : FleetGroup). group.limit) (groups_of two_racks) ≡ None ∷ Some 2 ∷ Some 0 ∷ [] }
    ensures members { (group_at (groups_of two_racks) 1).members ≡ 0 ∷ 1 ∷ 2 ∷ [] }
    ensures rooms { map (room (start_statuses two_racks (0 ∷ 2 ∷ 3 ∷ []))) (groups_of two_racks) ≡ None ∷ Some 1 ∷ Some 0 ∷ [] }
    ensures past { room (Failed ∷ Off ∷ Halted ∷ []) (group_at (groups_of two_racks) 1) ≡ Some 0 }
    ensures over { IsTrue (is_over (Failed ∷ Off ∷ Halted ∷ []) (group_at (groups_of two_racks) 1)) }
    ensures reached { IsFalse (is_over (Failed ∷ Off ∷ Idle ∷ []) (group_at (groups_of two_racks) 1)) }
{}

/// With one host off, one more member of the first rack can go down, but not two.
fn a_batch_fits_within_the_room()
    ensures one { IsFalse (is_full_for (Waiting ∷ Off ∷ Waiting ∷ []) (2 ∷ []) (group_at (groups_of two_racks) 1)) }
    ensures two { IsTrue (is_full_for (Waiting ∷ Off ∷ Waiting ∷ []) (2 ∷ 0 ∷ []) (group_at (groups_of two_racks) 1)) }
    ensures among { members_among (3 ∷ 2 ∷ 0 ∷ []) (group_at (groups_of two_racks) 1) ≡ 2 }
    ensures unlimited { IsFalse (is_full_for (Off ∷ Off ∷ Waiting ∷ []) (2 ∷ []) (group_at (groups_of two_racks) 0)) }
{}

/// A host without room in one of its groups lacks room, whatever room the other groups have.
fn a_host_is_stuck_in_a_group_without_room()
    ensures stuck { IsTrue (lacks_room (groups_of two_racks) (Waiting ∷ Off ∷ Waiting ∷ Waiting ∷ []) 3) }
    ensures room { IsFalse (lacks_room (groups_of two_racks) (Waiting ∷ Off ∷ Waiting ∷ Waiting ∷ []) 0) }
    ensures past { IsFalse (lacks_room (groups_of two_racks) (Waiting ∷ Off ∷ Waiting ∷ Waiting ∷ []) 4) }
{}

/// A batch has only waiting hosts: none that is listed twice, does not wait or does not exist.
fn a_batch_is_of_waiting_hosts()
    ensures ready { IsTrue (are_ready (Waiting ∷ Off ∷ Waiting ∷ []) (2 ∷ 0 ∷ [])) }
    ensures twice { IsFalse (are_ready (Waiting ∷ Off ∷ Waiting ∷ []) (2 ∷ 0 ∷ 2 ∷ [])) }
    ensures off { IsFalse (are_ready (Waiting ∷ Off ∷ Waiting ∷ []) (1 ∷ [])) }
    ensures past { IsFalse (are_ready (Waiting ∷ Off ∷ Waiting ∷ []) (3 ∷ [])) }
{}

/// A change affects only the listed hosts.
fn a_change_is_of_the_hosts_named()
    ensures changed { changed (λ _. Running) (2 ∷ 9 ∷ []) (Waiting ∷ Off ∷ Waiting ∷ []) ≡ Waiting ∷ Off ∷ Running ∷ [] }
    ensures down { down_count (Waiting ∷ Off ∷ Running ∷ []) (0 ∷ 1 ∷ 2 ∷ 9 ∷ []) ≡ 2 }
    ensures waiting { waiting_count (Waiting ∷ Off ∷ Running ∷ []) (0 ∷ 1 ∷ 2 ∷ 9 ∷ []) ≡ 1 }
{}
