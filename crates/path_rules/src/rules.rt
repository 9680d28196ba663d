//! The rule of a path.

ghost use Rattle.std.specs.Prelude.{◌≡◌, ◌<◌, length};
ghost use Rattle.path_rules.specs.Exceptions.{rule_of};

use crate::overrides::Rule;
use timing_defs::{Capture, Constraints, Launch};

/// The rule of the paths from a launch to a capture: a false path removes the test of its kind, and
/// the last multicycle that applies sets the cycles of its kind. Takes no memory.
pub fn rule(c: &Constraints, launch: &Launch, capture: &Capture) -> Rule
    requires launch { launch.now.clock < length c.now.clocks }
    requires capture { capture.now.clock < length c.now.clocks }
    ensures { result ≡ rule_of c.now launch.now capture.now }
{
    let exceptions = c.exceptions.as_slice();
    let mut found = Rule::PLAIN;
    for x in exceptions {
        found = found.after(c, launch, capture, x);
    }
    found
}
