//! A session's looks at the board, and the version that it puts there.

ghost use Rattle.std.specs.Prelude.{◌≡◌, ◌≤◌, [], ◌∷◌, IfOk, OnErr};
ghost use Rattle.std.specs.Arc.{arc_value};
ghost use Rattle.std.specs.Option.{option_map};
ghost use Rattle.timing_defs.specs.declared.edits.Eco.{Eco};
ghost use Rattle.timing_rules.specs.Sessions.{entry_by};
ghost use Rattle.version_board.specs.Callers.{IsSeatOf, IsSame};
ghost use Rattle.session_engine.specs.Versions.{IsNext};
ghost use Rattle.session_engine.specs.Looking.{meant, Holds, Saw, Looked, Offers};

use crate::versions::Version;
use sta_units::Memory;
use std::sync::{Arc, Wait};
use version_board::{Board, Seat, Unpublished};

/// The newest version, which the seat has looked at then.
#[tactic(auto, using(crate::proofs::Sights::looked_once))]
pub(crate) fn newest<R: Wait>(
    rt: &R,
    board: &Board<Version>,
    seat: &mut Seat<Version>,
) -> Result<Arc<Version>, Memory>
    requires { IsSeatOf meant board.now seat.old }
    ensures same { IsSame seat.old seat.new }
    ensures saw { IfOk result (λ v. Saw seat.old.view ((arc_value v).number ∷ []) seat.new.view) }
    ensures holds { IfOk result (λ v. Holds seat.new.view (arc_value v)) }
    ensures looked { OnErr result (Looked seat.old.view seat.new.view) }
{
    let version = board.take(rt, seat)?;
    version.laws();
    Ok(version)
}

/// The same, where the session holds a version: the number does not fall.
#[tactic(auto, using(crate::proofs::Sights::looked_once))]
pub(crate) fn newer<R: Wait>(
    rt: &R,
    board: &Board<Version>,
    seat: &mut Seat<Version>,
    held: &Version,
) -> Result<Arc<Version>, Memory>
    requires seat { IsSeatOf meant board.now seat.old }
    requires held { Holds seat.old.view held.now }
    ensures same { IsSame seat.old seat.new }
    ensures saw { IfOk result (λ v. Saw seat.old.view ((arc_value v).number ∷ []) seat.new.view) }
    ensures holds { IfOk result (λ v. Holds seat.new.view (arc_value v)) }
    ensures rises { IfOk result (λ v. held.now.number ≤ (arc_value v).number) }
    ensures looked { OnErr result (Looked seat.old.view seat.new.view) }
{
    held.laws();
    let version = board.take(rt, seat)?;
    version.laws();
    Ok(version)
}

/// Puts the next version of a base on the board, unless there is a newer one than the base: then it
/// gives that.
#[tactic(auto, using(crate::proofs::Sights::looked_once))]
pub(crate) fn publish<R: Wait>(
    rt: &R,
    board: &Board<Version>,
    seat: &mut Seat<Version>,
    base: &Version,
    who: u32,
    next: Arc<Version>,
) -> Result<Option<Arc<Version>>, Memory>
    requires seat { IsSeatOf meant board.now seat.old }
    requires number { seat.old.view.number ≡ who }
    requires base { Holds seat.old.view base.now }
    requires next { (eco : Eco) × IsNext base.now who eco (arc_value next) }
    ensures same { IsSame seat.old seat.new }
    ensures offers { IfOk result
        (λ newest. (eco : Eco) → IsNext base.now who eco (arc_value next)
        → Offers seat.old.view (entry_by who eco) seat.new.view (arc_value next)
        (option_map arc_value newest)) }
    ensures looked { OnErr result (Looked seat.old.view seat.new.view) }
{
    base.laws();
    next.laws();
    match board.publish(rt, seat, base.number(), next) {
        Ok(_) => Ok(None),
        Err(Unpublished::Moved { newest, back }) => {
            Version::discard(back);
            newest.laws();
            Ok(Some(newest))
        }
        Err(Unpublished::Memory { back }) => {
            Version::discard(back);
            Err(Memory)
        }
    }
}
