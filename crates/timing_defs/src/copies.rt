//! Copies of the types that a store keeps, each equal to what it was made of.

ghost use Rattle.std.specs.Prelude.{◌≡◌, Option, take, IfOk};
ghost use Rattle.timing_defs.specs.declared.edits.Edit.TheVariants.{Repower, InsertGate, RemoveGate, InsertNet, RemoveNet, Connect, Disconnect, InsertBuffer, SetParasitics};

use crate::constraints::{Clock, Object};
use crate::edge_times::EdgeTimes;
use crate::edits::{Eco, Edit, Entry};
use crate::items::Items;
use crate::kinds::Dir;
use crate::library::{CellPin, Table};
use crate::names::Name;
use crate::netlist::{Conn, Inst};
use crate::parasitics::{NetRc, RcCap, RcNode, RcRes};
use crate::rows::{BackRow, NodeRow};
use sta_units::{Again, Memory, Pair, both};
use std::alloc::Global;

impl<T: Again + Drop> Again for Items<T> {
    fn again(&self, alloc: Global) -> Result<Items<T>, Memory> {
        let mut copy = Items::with_room(alloc, self.len())?;
        for item in self.as_slice() {
            copy.push(item.again(alloc)?)?;
        }
        Ok(copy)
    }
}

impl Again for Name {
    fn again(&self, alloc: Global) -> Result<Name, Memory> {
        self.copied(alloc)
    }
}

impl Again for EdgeTimes {
    fn again(&self, alloc: Global) -> Result<EdgeTimes, Memory> {
        EdgeTimes::from_slice(alloc, self.as_slice())
    }
}

impl Again for Dir {
    fn again(&self, _alloc: Global) -> Result<Dir, Memory> {
        Ok(*self)
    }
}

impl Again for Table {
    fn again(&self, alloc: Global) -> Result<Table, Memory> {
        let xs = Items::from_slice(alloc, self.xs.as_slice());
        let indexes = both(xs, Items::from_slice(alloc, self.ys.as_slice()));
        let vals = Items::from_slice(alloc, self.vals.as_slice());
        let Pair {
            one: indexes,
            other: vals,
        } = both(indexes, vals)?;
        let Pair { one: xs, other: ys } = indexes;
        Ok(Table { xs, ys, vals })
    }
}

impl Again for CellPin {
    fn again(&self, alloc: Global) -> Result<CellPin, Memory> {
        let name = self.name.copied(alloc)?;
        Ok(CellPin {
            name,
            dir: self.dir,
            cap: self.cap,
        })
    }
}

impl Again for Conn {
    fn again(&self, alloc: Global) -> Result<Conn, Memory> {
        let Pair {
            one: pin,
            other: net,
        } = both(self.pin.copied(alloc), self.net.again(alloc))?;
        Ok(Conn { pin, net })
    }
}

impl Again for Inst {
    fn again(&self, alloc: Global) -> Result<Inst, Memory> {
        let names = both(self.name.copied(alloc), self.cell.copied(alloc));
        let Pair {
            one: names,
            other: conns,
        } = both(names, self.conns.again(alloc))?;
        let Pair {
            one: name,
            other: cell,
        } = names;
        Ok(Inst { name, cell, conns })
    }
}

impl Again for Clock {
    fn again(&self, alloc: Global) -> Result<Clock, Memory> {
        let Pair {
            one: name,
            other: port,
        } = both(self.name.copied(alloc), self.port.again(alloc))?;
        Ok(Clock {
            name,
            port,
            period: self.period,
            rise: self.rise,
            fall: self.fall,
            unc_setup: self.unc_setup,
            unc_hold: self.unc_hold,
        })
    }
}

impl Again for RcCap {
    fn again(&self, alloc: Global) -> Result<RcCap, Memory> {
        let node = self.node.again(alloc)?;
        Ok(RcCap {
            node,
            cap: self.cap,
        })
    }
}

impl Again for RcRes {
    fn again(&self, alloc: Global) -> Result<RcRes, Memory> {
        let Pair { one: a, other: b } = both(self.a.again(alloc), self.b.again(alloc))?;
        Ok(RcRes {
            a,
            b,
            res: self.res,
        })
    }
}

impl Again for NetRc {
    fn again(&self, alloc: Global) -> Result<NetRc, Memory> {
        let rows = both(self.caps.again(alloc), self.ress.again(alloc));
        let Pair {
            one: net,
            other: rows,
        } = both(self.net.copied(alloc), rows)?;
        let Pair {
            one: caps,
            other: ress,
        } = rows;
        Ok(NetRc {
            net,
            caps,
            ress,
            lump: self.lump,
        })
    }
}

impl Again for NodeRow {
    fn again(&self, alloc: Global) -> Result<NodeRow, Memory> {
        let Pair {
            one: early,
            other: late,
        } = both(self.early.again(alloc), self.late.again(alloc))?;
        Ok(NodeRow {
            early_slew: self.early_slew,
            late_slew: self.late_slew,
            early,
            late,
        })
    }
}

impl Again for BackRow {
    fn again(&self, alloc: Global) -> Result<BackRow, Memory> {
        let Pair {
            one: early,
            other: late,
        } = both(self.early.again(alloc), self.late.again(alloc))?;
        Ok(BackRow { early, late })
    }
}

impl Again for Eco {
    fn again(&self, alloc: Global) -> Result<Eco, Memory> {
        let edits = self.edits.again(alloc)?;
        Ok(Eco { edits })
    }
}

impl Again for Entry {
    fn again(&self, alloc: Global) -> Result<Entry, Memory> {
        let eco = self.eco.again(alloc)?;
        Ok(Entry {
            session: self.session,
            eco,
        })
    }
}

impl Again for Object {
    fn again(&self, alloc: Global) -> Result<Object, Memory> {
        let name = match self {
            Object::Clock(name) => name,
            Object::Port(name) => name,
            Object::Pin(name) => name,
            Object::Cell(name) => name,
            Object::Any(name) => name,
        };
        let name = name.copied(alloc)?;
        Ok(match self {
            Object::Clock(_) => Object::Clock(name),
            Object::Port(_) => Object::Port(name),
            Object::Pin(_) => Object::Pin(name),
            Object::Cell(_) => Object::Cell(name),
            Object::Any(_) => Object::Any(name),
        })
    }
}

impl Again for RcNode {
    fn again(&self, alloc: Global) -> Result<RcNode, Memory> {
        match self {
            RcNode::Pin(name) => {
                let name = name.copied(alloc)?;
                Ok(RcNode::Pin(name))
            }
            RcNode::Inner(number) => Ok(RcNode::Inner(*number)),
        }
    }
}

/// Copies the edit that gives an instance another cell.
fn repower_again(alloc: Global, inst: &Name, cell: &Name) -> Result<Edit, Memory>
    ensures copied { IfOk result (λ copy. copy ≡ Repower inst.now cell.now) }
{
    let Pair {
        one: inst,
        other: cell,
    } = both(inst.copied(alloc), cell.copied(alloc))?;
    Ok(Edit::Repower { inst, cell })
}

/// Copies the edit that adds an instance.
fn gate_again(alloc: Global, inst: &Name, cell: &Name) -> Result<Edit, Memory>
    ensures copied { IfOk result (λ copy. copy ≡ InsertGate inst.now cell.now) }
{
    let Pair {
        one: inst,
        other: cell,
    } = both(inst.copied(alloc), cell.copied(alloc))?;
    Ok(Edit::InsertGate { inst, cell })
}

/// Copies the edit that takes an instance away.
fn no_gate_again(alloc: Global, inst: &Name) -> Result<Edit, Memory>
    ensures copied { IfOk result (λ copy. copy ≡ RemoveGate inst.now) }
{
    let inst = inst.copied(alloc)?;
    Ok(Edit::RemoveGate { inst })
}

/// Copies the edit that adds a net.
fn net_again(alloc: Global, net: &Name) -> Result<Edit, Memory>
    ensures copied { IfOk result (λ copy. copy ≡ InsertNet net.now) }
{
    let net = net.copied(alloc)?;
    Ok(Edit::InsertNet { net })
}

/// Copies the edit that takes a net away.
fn no_net_again(alloc: Global, net: &Name) -> Result<Edit, Memory>
    ensures copied { IfOk result (λ copy. copy ≡ RemoveNet net.now) }
{
    let net = net.copied(alloc)?;
    Ok(Edit::RemoveNet { net })
}

/// Copies the edit by which a pin joins a net.
fn connect_again(alloc: Global, pin: &Name, net: &Name) -> Result<Edit, Memory>
    ensures copied { IfOk result (λ copy. copy ≡ Connect pin.now net.now) }
{
    let Pair {
        one: pin,
        other: net,
    } = both(pin.copied(alloc), net.copied(alloc))?;
    Ok(Edit::Connect { pin, net })
}

/// Copies the edit by which a pin leaves its net.
fn disconnect_again(alloc: Global, pin: &Name) -> Result<Edit, Memory>
    ensures copied { IfOk result (λ copy. copy ≡ Disconnect pin.now) }
{
    let pin = pin.copied(alloc)?;
    Ok(Edit::Disconnect { pin })
}

/// Copies the edit that inserts a buffer.
fn buffer_again(
    alloc: Global,
    net: &Name,
    inst: &Name,
    fresh: &Name,
    cell: &Name,
    sinks: &Items<Name>,
) -> Result<Edit, Memory>
    ensures copied { IfOk result (λ r. r ≡ InsertBuffer net.now inst.now fresh.now cell.now sinks.now) }
{
    let nets = both(net.copied(alloc), fresh.copied(alloc));
    let gate = both(inst.copied(alloc), cell.copied(alloc));
    let Pair {
        one: names,
        other: sinks,
    } = both(both(nets, gate), sinks.again(alloc))?;
    let Pair {
        one: nets,
        other: gate,
    } = names;
    let Pair {
        one: net,
        other: fresh,
    } = nets;
    let Pair {
        one: inst,
        other: cell,
    } = gate;
    Ok(Edit::InsertBuffer {
        net,
        inst,
        fresh,
        cell,
        sinks,
    })
}

/// Copies the edit that gives a net other parasitics.
fn parasitics_again(alloc: Global, net: &Name, rc: &Option<NetRc>) -> Result<Edit, Memory>
    ensures copied { IfOk result (λ copy. copy ≡ SetParasitics net.now rc.now) }
{
    let Pair {
        one: net,
        other: rc,
    } = both(net.copied(alloc), rc.again(alloc))?;
    Ok(Edit::SetParasitics { net, rc })
}

impl Again for Edit {
    fn again(&self, alloc: Global) -> Result<Edit, Memory> {
        match self {
            Edit::Repower { inst, cell } => repower_again(alloc, inst, cell),
            Edit::InsertGate { inst, cell } => gate_again(alloc, inst, cell),
            Edit::RemoveGate { inst } => no_gate_again(alloc, inst),
            Edit::InsertNet { net } => net_again(alloc, net),
            Edit::RemoveNet { net } => no_net_again(alloc, net),
            Edit::Connect { pin, net } => connect_again(alloc, pin, net),
            Edit::Disconnect { pin } => disconnect_again(alloc, pin),
            Edit::InsertBuffer {
                net,
                inst,
                fresh,
                cell,
                sinks,
            } => buffer_again(alloc, net, inst, fresh, cell, sinks),
            Edit::SetParasitics { net, rc } => parasitics_again(alloc, net, rc),
        }
    }
}
