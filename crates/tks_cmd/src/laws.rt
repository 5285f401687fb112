//! Laws of commands on windows.
ghost use Rattle.tks_cmd.specs.Laws.{AnswersStay, ErrorsChangeNothing, LeavesFrames};
ghost use Rattle.tks_text.specs.Limits.{Wider};
ghost use Rattle.tks_text.specs.declared.limits.Limits.{Limits};

/// A command on windows that ends in an error of its own has changed neither the world nor the variables.
pub fn errors_change_nothing()
    ensures { ErrorsChangeNothing }
{}

/// Wider limits keep what a command comes to.
pub fn wider_limits_keep_commands()
    ensures { (limits wider : Limits) → Wider limits wider → AnswersStay limits wider }
{}

/// A command on windows leaves all frames of variables but the innermost, and as many of them.
pub fn commands_leave_frames()
    ensures { LeavesFrames }
{}
