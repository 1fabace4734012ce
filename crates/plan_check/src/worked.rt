//! The definitions, read against small plans: each clause computes.
ghost use Rattle.std.specs.Prelude.{◌≡◌, [], ◌∷◌, ◌++◌, Some, None, codes};
ghost use Rattle.fleet_states.specs.declared.status.Status.TheVariants.{Waiting, Idle, Off};
ghost use Rattle.fleet_states.specs.Worked.{two_racks};
ghost use Rattle.plan_check.specs.Listings.{bad_line, batches_of};
ghost use Rattle.plan_check.specs.PlanErrors.{group_id, host_id, first_plan_error};
ghost use Rattle.plan_check.specs.declared.wrong.Wrong.TheVariants.{Empty, NotWaiting, Twice, Size, Over, Missing};

/// The text of `plan` is a plan's: its first line and its last one say nothing of batches.
fn the_text_of_plan_is_read()
    ensures batches { batches_of (codes "plan batches=2 bound=group web waiting=3 room=2\nbatch 1: a c\nbatch 2: b\nheld: d\n")
        ≡ (codes "a" ∷ codes "c" ∷ []) ∷ (codes "b" ∷ []) ∷ [] }
    ensures good { bad_line (codes "plan batches=2 bound=group web waiting=3 room=2\nbatch 1: a c\nbatch 2: b\nheld: d\n") ≡ None }
{}

/// A line of names is a batch, whatever blanks stand there, and an empty one is passed over.
fn lines_of_names_are_read()
    ensures names { batches_of (codes "\n a\t c \r\n\nb") ≡ (codes "a" ∷ codes "c" ∷ []) ∷ (codes "b" ∷ []) ∷ [] }
    ensures mixed { batches_of (codes "a\nbatch 2: b\n") ≡ (codes "a" ∷ []) ∷ (codes "b" ∷ []) ∷ [] }
    ensures nobody { batches_of (codes "batch 1:\na") ≡ [] ∷ (codes "a" ∷ []) ∷ [] }
    ensures hosts { batches_of (codes "plan batch held\nbatch a") ≡ (codes "plan" ∷ codes "batch" ∷ codes "held" ∷ []) ∷ (codes "batch" ∷ codes "a" ∷ []) ∷ [] }
    ensures nothing { batches_of [] ≡ [] }
{}

/// A batch has the number of its place, and nothing else than names stands behind it.
fn other_lines_are_refused()
    ensures place { bad_line (codes "batch 1: a\nbatch 3: b") ≡ Some 2 }
    ensures noughts { bad_line (codes "batch 01: a") ≡ Some 1 }
    ensures close { bad_line (codes "batch 1:a") ≡ Some 1 }
    ensures commas { bad_line (codes "\n\na, b\n") ≡ Some 3 }
    ensures heading { bad_line (codes "a\nplan batches=1 bound=one-host\n") ≡ Some 2 }
    ensures blocked { bad_line (codes "blocked group=rack1 waiting=2\n") ≡ Some 1 }
{}

/// Of the first rack, which has a host off, one more may go down.
fn the_first_wrong_is_told()
    ensures plan { first_plan_error two_racks (Waiting ∷ Off ∷ Waiting ∷ Idle ∷ []) None ((0 ∷ []) ∷ (2 ∷ []) ∷ []) ≡ None }
    ensures missing { first_plan_error two_racks (Waiting ∷ Off ∷ Waiting ∷ Idle ∷ []) None ((0 ∷ []) ∷ []) ≡ Some (Missing (host_id 2)) }
    ensures twice { first_plan_error two_racks (Waiting ∷ Off ∷ Waiting ∷ Idle ∷ []) None ((0 ∷ []) ∷ (2 ∷ []) ∷ (0 ∷ []) ∷ []) ≡ Some (Twice 3 (host_id 0)) }
    ensures within { first_plan_error two_racks (Waiting ∷ Off ∷ Waiting ∷ Idle ∷ []) None ((2 ∷ 2 ∷ []) ∷ []) ≡ Some (Twice 1 (host_id 2)) }
    ensures off { first_plan_error two_racks (Waiting ∷ Off ∷ Waiting ∷ Idle ∷ []) None ((0 ∷ []) ∷ (1 ∷ []) ∷ []) ≡ Some (NotWaiting 2 (host_id 1)) }
    ensures over { first_plan_error two_racks (Waiting ∷ Off ∷ Waiting ∷ Idle ∷ []) None ((2 ∷ 0 ∷ []) ∷ []) ≡ Some (Over 1 (group_id 1) 2 1) }
    ensures size { first_plan_error two_racks (Waiting ∷ Off ∷ Waiting ∷ Idle ∷ []) (Some 1) ((2 ∷ 0 ∷ []) ∷ []) ≡ Some (Size 1 2 1) }
    ensures empty { first_plan_error two_racks (Waiting ∷ Off ∷ Waiting ∷ Idle ∷ []) None ((0 ∷ []) ∷ [] ∷ (2 ∷ 2 ∷ []) ∷ []) ≡ Some (Empty 2) }
    ensures nobody { first_plan_error two_racks (Idle ∷ Off ∷ Idle ∷ Idle ∷ []) (Some 1) [] ≡ None }
{}
