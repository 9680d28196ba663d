//! What exceptions make of a test.

ghost use Rattle.std.specs.Prelude.{◌≡◌};
ghost use Rattle.path_rules.specs.Exceptions.{after_effect, after};

use crate::objects::applies;
use timing_defs::{Capture, Constraints, Effect, Exception, Launch};

/// What the exceptions say of the paths from a launch to a capture: whether setup and hold are
/// tested, and the numbers of cycles of each.
#[derive(Clone, Copy, Drop)]
pub struct Rule {
    pub setup_tested: bool,
    pub hold_tested: bool,
    pub setup_cycles: u32,
    pub hold_cycles: u32,
}

impl Rule {
    /// Tested in both kinds, with one cycle for setup and none for hold.
    pub(crate) const PLAIN: Rule = Rule {
        setup_tested: true,
        hold_tested: true,
        setup_cycles: 1,
        hold_cycles: 0,
    };

    /// The rule after an exception that applies.
    fn with(self, effect: Effect) -> Rule
        ensures { result ≡ after_effect self effect }
    {
        match effect {
            Effect::FalseSetup => Rule {
                setup_tested: false,
                ..self
            },
            Effect::FalseHold => Rule {
                hold_tested: false,
                ..self
            },
            Effect::CyclesSetup(n) => Rule {
                setup_cycles: n,
                ..self
            },
            Effect::CyclesHold(n) => Rule {
                hold_cycles: n,
                ..self
            },
        }
    }

    /// The rule after an exception, which may not apply.
    pub(crate) fn after(
        self,
        c: &Constraints,
        launch: &Launch,
        capture: &Capture,
        x: &Exception,
    ) -> Rule
        ensures { result ≡ after c.now launch.now capture.now self x.now }
    {
        if applies(c, launch, capture, x) {
            self.with(x.effect)
        } else {
            self
        }
    }
}
