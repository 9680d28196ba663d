//! The pins that a question names.

ghost use Rattle.std.specs.Prelude.{◌≡◌, None, IfErr, OnOk, drop};
ghost use Rattle.timing_defs.specs.Wires.{first_some};
ghost use Rattle.timing_rules.specs.Reports.{unknown_pin};
ghost use Rattle.affected_cone.specs.Asked.{IsRefusal};

use affected_cone::pin_there;
use netlist_store::Store;
use std::alloc::Global;
use timing_defs::{Name, QueryFault};

/// That pins are there: `UnknownPin` of the first that is not.
pub(crate) fn pins_there(alloc: Global, store: &Store, pins: &[Name]) -> Result<(), QueryFault>
    ensures there { OnOk result (first_some (unknown_pin store.now.design) pins.now ≡ None) }
    ensures refused { IfErr result
        (IsRefusal (first_some (unknown_pin store.now.design) pins.now)) }
{
    for pin in pins {
        let _number = pin_there(alloc, store, pin)?;
    }
    Ok(())
}
