//! Laws of steps and runs.
ghost use Rattle.std.specs.Prelude.{◌≡◌, ℕ, List, true};
ghost use Rattle.tks_text.specs.Limits.{Wider};
ghost use Rattle.tks_text.specs.declared.limits.Limits.{Limits};
ghost use Rattle.tks_text.specs.Size.{Extent};
ghost use Rattle.tks_app.specs.Applications.{Application, Meaning};
ghost use Rattle.tks_state.specs.World.{first_world};
ghost use Rattle.tks_event.specs.Event.{Event};
ghost use Rattle.tks_bind.specs.Percents.{has_field, field_text, value};
ghost use Rattle.tks_bind.specs.declared.field.Field.{Field};
ghost use Rattle.tks_world.specs.Laws.{AcceptsStay, AtRest, QuietSo, RunsJoin, RunsStay, RefusedLeaveOut, RunsRest, StepsCount, StepsRest, UpdatesLeaveNoIdle, UpdatesLeaveNothing};
ghost use Rattle.tks_world.specs.OneWord.{IsOneWord, SpellsOneWord};

/// What is accepted within limits is accepted within wider ones, with the same world and reply.
pub fn wider_limits_keep_steps()
    ensures { (app : Application) (limits wider : Limits) → Wider limits wider → AcceptsStay app limits wider }
{}

/// The run of two lists of inputs, one behind the other, is the run of the first, and then that of the second from where
/// the first ended.
pub fn runs_join()
    ensures { (app : Application) (limits : Limits) → RunsJoin app limits }
{}

/// Whichever inputs are refused between, a run leaves the world, and has the replies, of a run over those that are accepted.
pub fn refused_inputs_leave_runs()
    ensures { (app : Application) (limits : Limits) → RefusedLeaveOut app limits }
{}

/// What is put into a bound script for a field of an event is one word of it, and the word's value is the field's: nothing in it
/// is substituted, splits it, ends its command or begins a comment. By itself it is the script of just that word.
pub fn values_are_words()
    ensures word { (e : Event) (path : List ℕ) (f : Field) → has_field e.kind f ≡ true → IsOneWord (field_text e path f) (value e path f) }
    ensures alone { (e : Event) (path : List ℕ) (f : Field) → has_field e.kind f ≡ true → SpellsOneWord (field_text e path f) (value e path f) }
{}

/// No frame of variables stands between inputs: none does in the first world, and where none does, none does behind an input or
/// behind a run.
pub fn no_frame_stands_between_inputs()
    ensures first { (grid : Extent) (names : List (List ℕ)) → AtRest (first_world grid names) }
    ensures step { (app : Application) (limits : Limits) → StepsRest app limits }
    ensures run { (app : Application) (limits : Limits) → RunsRest app limits }
{}

/// A turn is refused as quiet just where no event waits, no timer is due and no idle script stands.
#[tactic(auto, using(crate::proofs::Quiet::quiet_so))]
pub fn a_turn_is_quiet_where_nothing_waits()
    ensures { (app : Application) (limits : Limits) → QuietSo app limits }
{}

/// In a world that goes by the second rules nothing waits behind an `update` that ended, in whatever script, that a turn would
/// do: no event, no timer that is due, no idle script. Behind `update idletasks` no idle script stands. Both ended well and with
/// the empty text, whatever the scripts ended with that they ran.
pub fn updates_leave_nothing_waiting()
    ensures all { (m : Meaning) (limits : Limits) → UpdatesLeaveNothing m limits }
    ensures idle { (m : Meaning) (limits : Limits) → UpdatesLeaveNoIdle m limits }
{}

/// An accepted input adds one to the count of the world, and its reply tells that count.
#[tactic(auto, using(crate::proofs::Counts::steps_count))]
pub fn accepted_inputs_are_counted()
    ensures { (app : Application) (limits : Limits) → StepsCount app limits }
{}

/// A list of inputs that are each accepted within limits is accepted within wider ones, with the same replies, and leads to the
/// same world.
#[tactic(auto, using(crate::proofs::Wider::runs_stay))]
pub fn wider_limits_keep_runs()
    ensures { (app : Application) (limits wider : Limits) → Wider limits wider → RunsStay app limits wider }
{}
