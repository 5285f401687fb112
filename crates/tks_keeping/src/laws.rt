//! What steps keep.
ghost use Rattle.tks_app.specs.Applications.{Application};
ghost use Rattle.tks_keeping.specs.Keeping.{StepsKeep};
ghost use Rattle.tks_text.specs.declared.limits.Limits.{Limits};

/// An accepted input keeps a world within the limits that was within them, on its grid, and with memories of the names of which it
/// had some.
pub fn steps_keep_worlds()
    ensures { (app : Application) (limits : Limits) → StepsKeep app limits }
{}
