//! Collects: drops old generations and what of the store no root reaches, from the plan to the last line.
ghost use Rattle.std.specs.Prelude.{ℕ, IsErrOf};
ghost use Rattle.host_trait.specs.Host.{Told};
ghost use Rattle.boot_entries.specs.Steps.{AreEntries, CanApplyBoot};
ghost use Rattle.store_collect.specs.Collection.{IsCollectionOf};
ghost use Rattle.switch_run.specs.declared.run_fault.RunFault.TheVariants.{Sink};
ghost use Rattle.switch_run.specs.CollectionEnding.{Allows, HasReportedCollection, IsCollectionRun};
ghost use Rattle.switch_run.specs.Ending.{IsSinkCaused};

use crate::run_fault::RunFault;
use dry_report::{collection_report, put_last_line};
use host_trait::{Manager, Sink};
use std::alloc::Global;
use store_collect::{Collection, apply, plan};

/// Puts the report of a planned collection.
fn put_collection_report<S: Sink>(
    alloc: Global,
    out: &mut S,
    collection: &Collection,
) -> Result<(), RunFault>
    ensures output { HasReportedCollection collection.now (S.sink out.old) (S.sink out.new) result }
    ensures cause { IsSinkCaused (S.sink out.old) (S.sink out.new) (IsErrOf result Sink) }
{
    let text = collection_report(alloc, collection)?;
    out.put(text.as_slice())?;
    Ok(())
}

/// Puts the report of a planned collection, carries it out, and puts the last line.
fn run_planned_collection<H: Manager, S: Sink>(
    alloc: Global,
    host: &mut H,
    out: &mut S,
    collection: &Collection,
) -> Result<bool, RunFault>
    requires places { AreEntries collection.now.texts.entries }
    requires can { Told (H.host host.old) (CanApplyBoot collection.now.texts) }
    ensures { (keep : ℕ) → Told (H.host host.old) (λ w. IsCollectionOf keep w collection.now) → Allows keep (H.host host.old)
        → IsCollectionRun keep (H.host host.old) (H.host host.new) (S.sink out.old) (S.sink out.new) result }
{
    put_collection_report(alloc, out, collection)?;
    apply(alloc, host, collection)?;
    put_last_line(out)?;
    Ok(false)
}

/// Plans a collection that keeps so many generations, and runs it.
pub fn run_collection<H: Manager, S: Sink>(
    alloc: Global,
    host: &mut H,
    out: &mut S,
    keep: u32,
) -> Result<bool, RunFault>
    ensures { IsCollectionRun keep (H.host host.old) (H.host host.new) (S.sink out.old) (S.sink out.new) result }
{
    let collection = plan(alloc, host, keep)?;
    run_planned_collection(alloc, host, out, &collection)
}
