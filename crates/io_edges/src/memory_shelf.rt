//! A shelf in memory, whose calls fail as planned.

ghost use Rattle.std.specs.Prelude.{◌≡◌, ◌<◌, ◌^◌, true, false, Some, OnOk, IfOk, IsErrOf, IsOkUnless};
ghost use Rattle.std.specs.Option.{option_map};
ghost use Rattle.std.specs.BTreeMap.{get_by_text};
ghost use Rattle.std.specs.FinMap as finite;
ghost use Rattle.io_edges.specs.Plan.{is_due, after_call};
ghost use Rattle.io_edges.specs.Store.{new_shelf};

use crate::fault_plan::FaultPlan;
use crate::{Shelf, ShelfFault};
use std::collections::BTreeMap;
use std::marker::Model;

/// A shelf of files in memory, which fails at the calls whose numbers it is given.
#[derive(Drop)]
pub struct MemoryShelf {
    files: BTreeMap<String, Vec<u8>>,
    plan: FaultPlan,
}

impl Model for MemoryShelf {
    ghost use Rattle.io_edges.specs.Store.{PlannedShelf, coded_shelf, store_of};

    ghost Value = { PlannedShelf };

    ghost coded = { coded_shelf };

    ghost view = { λ s. record { files = store_of s.files; plan = s.plan } };
}

impl MemoryShelf {
    /// The fetches whose numbers, from 0, are in `failing` fail.
    pub fn new(files: BTreeMap<String, Vec<u8>>, failing: Vec<u64>) -> MemoryShelf
        ensures { result ≡ new_shelf files failing.items }
    {
        MemoryShelf {
            files,
            plan: FaultPlan::new(failing),
        }
    }
}

impl Shelf for MemoryShelf {
    ghost files = { λ s. Some s.files };

    ghost faults = { λ s. s.plan.faults };

    ghost fetches = { λ s. s.plan.calls };

    fn fetch(&mut self, name: &str) -> Result<Option<Vec<u8>>, ShelfFault>
        ensures ok { OnOk result (is_due self.old.plan ≡ false) }
        ensures found { IfOk result (λ found.
            option_map (λ v. v.items) found ≡ finite.get self.old.files name.now) }
        ensures failed { IsErrOf result ShelfFault.Failed → is_due self.old.plan ≡ true }
        ensures memory { IsErrOf result ShelfFault.Memory → is_due self.old.plan ≡ false }
        ensures kept { self.new.files ≡ self.old.files }
        ensures counted { self.new.plan ≡ after_call self.old.plan }
        ensures faults { self.old.plan.faults < 2 ^ 64 }
    {
        if self.plan.fails() {
            return Err(ShelfFault::Failed);
        }
        copy_of(&self.files, name)
    }
}

fn copy_of(files: &BTreeMap<String, Vec<u8>>, name: &str) -> Result<Option<Vec<u8>>, ShelfFault>
    ensures found { IfOk result (λ found.
        option_map (λ v. v.items) found
        ≡ option_map (λ v. v.items) (get_by_text files.now name.now)) }
    ensures memory { IsOkUnless result ShelfFault.Memory }
{
    let Some(bytes) = files.get(name) else {
        return Ok(None);
    };
    match bytes.clone() {
        Ok(bytes) => Ok(Some(bytes)),
        Err(_) => Err(ShelfFault::Memory),
    }
}
