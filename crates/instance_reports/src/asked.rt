//! The instance that a question names.

ghost use Rattle.std.specs.Prelude.{◌≡◌, ◌⊎◌, Some, None, IfOk, IfErr};
ghost use Rattle.timing_rules.specs.Closing.{unknown_inst};
ghost use Rattle.netlist_store.specs.Numbering.{name_at};

use netlist_store::Store;
use std::alloc::Global;
use timing_defs::{Name, QueryFault};

/// The fault of a name of no instance.
fn unknown_inst(alloc: Global, inst: &Name) -> QueryFault
    ensures { (result ≡ QueryFault.Memory) ⊎ (result ≡ QueryFault.UnknownName inst.now) }
{
    match inst.copied(alloc) {
        Ok(name) => QueryFault::UnknownName(name),
        Err(_) => QueryFault::Memory,
    }
}

/// The number of an instance; `UnknownName` exactly where no instance has that name. Takes memory
/// only for the name in a fault.
pub(crate) fn inst_there(alloc: Global, store: &Store, inst: &Name) -> Result<u32, QueryFault>
    ensures number { IfOk result (λ number. name_at store.now.insts number ≡ Some inst.now) }
    ensures there { IfOk result (λ number. unknown_inst store.now.design inst.now ≡ None) }
    ensures refused { IfErr result
        (λ fault. (fault ≡ QueryFault.Memory)
        ⊎ (unknown_inst store.now.design inst.now ≡ Some fault)) }
{
    store.laws();
    match store.inst(inst) {
        Some(number) => Ok(number),
        None => Err(unknown_inst(alloc, inst)),
    }
}
