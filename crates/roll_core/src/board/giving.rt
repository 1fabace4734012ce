//! A worker takes a host, and may find no memory for its work.
ghost use Rattle.std.specs.Prelude.{◌≡◌, IfOk, IfSome, OnErr};
ghost use Rattle.roll_core.specs.Givings.{HasItsGo, IsGiving};

use crate::board::Board;
use crate::claim::Claim;
use crate::claimed::{Claimed, given_out};
use crate::observer::Observer;
use crate::runner::Runner;
use crate::telling::report_begin;
use std::alloc::{AllocError, Global};
use std::sync::ledger::Ledger;

impl<'f, R: Runner, L: Ledger, W: Observer> Board<'f, R, L, W> {
    /// Hands out the next host of the batch on which the present step is due and that nobody has taken, with its share, its job and the
    /// leave to run it once, or with how the step ended where no program is to run; none where there is no such host, where no batch is
    /// at a step, or where as many claims are out as there are forks. Want of memory leaves everything as it was.
    pub fn claim(&mut self, alloc: Global) -> Result<Option<Claimed<'f, R>>, AllocError>
        ensures ok { IfOk result (IsGiving self.old self.new) }
        ensures leave { IfOk result (λ out. IfSome out HasItsGo) }
        ensures unchanged { OnErr result (self.new ≡ self.old) }
    {
        let runner = self.runner;
        let Some(handed) = self.kernel.claim(alloc)? else {
            return Ok(None);
        };
        report_begin(&mut self.watch, &self.kernel, &handed);
        Ok(Some(given_out(handed, runner)))
    }

    /// Gives a claim up whose worker found no memory. The claim stays out, its host stays down, and its batch doesn't pass the step unless
    /// a `Done` of an equal claim is reported for it.
    pub fn strand(&mut self, claim: Claim)
        ensures { self.new ≡ self.old }
    {
        self.kernel.strand(claim);
    }
}
