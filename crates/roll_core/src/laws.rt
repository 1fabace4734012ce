//! What is out, and stays so until it is reported: so whoever reports what a kernel handed out is no stranger to it.
ghost use Rattle.roll_core.specs.Laws.{ClaimsLeaveOut, OtherReportsLeaveOut, WhatWasHandedOutIsOut};

/// What a claim handed out is what the kernel waits for, however its program ends.
pub fn what_was_handed_out_is_out()
    ensures { WhatWasHandedOutIsOut }
{}

/// Claims, and reports of other hosts, leave it out.
pub fn work_on_others_leaves_a_claim_out()
    ensures claims { ClaimsLeaveOut }
    ensures reports { OtherReportsLeaveOut }
{}
