// The plan of a run.

ghost use Rattle.std.specs.Prelude.{◌≡◌, IfOk, IfSome};
ghost use Rattle.lu_spec.specs.Fault.{IsCaused};
ghost use Rattle.plan_file.specs.Kept.{KeepsForms};
ghost use Rattle.lu_load.specs.Plans.{PlanTextAnswers, PlanAnswers};

use crate::LoadError;
use crate::error::{of_plan, of_plan_file};
use lu_base::Shelf;
use lu_base::limits::TEXT_BYTES;
use plan_file::{Plan, read_plan};
use std::alloc::Global;

fn plan_in(alloc: Global, text: &[u8]) -> Result<Plan, LoadError>
    ensures answer { PlanTextAnswers text.now result }
    ensures forms { IfOk result KeepsForms }
{
    match read_plan(alloc, text) {
        Ok(plan) => Ok(plan),
        Err(error) => Err(of_plan(error)),
    }
}

/// The plan in the file of that name, of at most 1,048,576 bytes.
pub fn load_plan<S: Shelf>(alloc: Global, name: &str, shelf: &mut S) -> Result<Plan, LoadError>
    ensures kept { S.holds shelf.new ≡ S.holds shelf.old }
    ensures cause { IsCaused LoadError.ReadFault (S.faults shelf.old) (S.faults shelf.new) result }
    ensures answer { IfSome (S.holds shelf.old) (λ files. PlanAnswers (files name.now) result) }
    ensures forms { IfOk result KeepsForms }
{
    match shelf.read(alloc, name, TEXT_BYTES as u64) {
        Ok(text) => plan_in(alloc, text.as_slice()),
        Err(fault) => Err(of_plan_file(fault)),
    }
}
