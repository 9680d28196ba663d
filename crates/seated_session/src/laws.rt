//! What is known of what a session has answered.

ghost use Rattle.std.specs.Prelude.{List};
ghost use Rattle.timing_defs.specs.declared.scripts.Command.{Command};
ghost use Rattle.timing_defs.specs.declared.scripts.Row.{Row};
ghost use Rattle.seated_session.specs.Seated.{Seated, HasAnswered, HasRun};

/// What a session has answered is a run of its commands, also where it holds a version and could go on.
pub fn answered_is_run()
    ensures { (s : Seated) (commands : List Command) (rows : List Row) → HasAnswered s commands rows
        → HasRun s.seat.view commands rows }
{}
