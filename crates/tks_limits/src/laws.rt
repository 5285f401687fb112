//! What wider limits admit.
ghost use Rattle.std.specs.Prelude.{◌≡◌, true};
ghost use Rattle.tks_limits.specs.Within.{within};
ghost use Rattle.tks_state.specs.World.{World};
ghost use Rattle.tks_text.specs.Limits.{Wider};
ghost use Rattle.tks_text.specs.declared.limits.Limits.{Limits};

/// A world that keeps within limits keeps within wider ones.
pub fn wider_limits_admit()
    ensures { (limits wider : Limits) (w : World) → Wider limits wider → within limits w ≡ true → within wider w ≡ true }
{}
