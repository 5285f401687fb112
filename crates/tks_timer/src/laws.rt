//! What is stated of timers alone.
ghost use Rattle.std.specs.Prelude.{◌≡◌, ℕ, List};
ghost use Rattle.tks_timer.specs.After.{Content};
ghost use Rattle.tks_timer.specs.Ids.{Act, given_out, RiseFrom};

/// Whatever is kept, cancelled and taken out, the ids that are given out rise from the next one on: none is given
/// out twice.
#[tactic(auto, using(crate::proofs::Rising::ids_rise))]
pub fn ids_are_given_out_once()
    ensures { (acts : List Act) (c : Content) → RiseFrom c.next (given_out acts c) }
{}
