//! Laws of terminals.
ghost use Rattle.std.specs.Prelude.{◌≡◌, ℕ, List, [], ◌++◌, Some, Ok};
ghost use Rattle.tks_text.specs.Limits.{Wider};
ghost use Rattle.tks_text.specs.Size.{Extent};
ghost use Rattle.tks_text.specs.declared.limits.Limits.{Limits};
ghost use Rattle.tks_app.specs.Applications.{Application};
ghost use Rattle.tks_disk.specs.DiskModel.{Images};
ghost use Rattle.tks_disk.specs.declared.disk.Side.{Side};
ghost use Rattle.tks_input.specs.declared.input.Input.{Input};
ghost use Rattle.tks_spelling.specs.declared.format.Format.TheVariants.{One, Two};
ghost use Rattle.tks_spelling.specs.declared.header.Header.{Header};
ghost use Rattle.tks_journal.specs.Sides.{AllShort, kept};
ghost use Rattle.tks_durable.specs.Inputs.{counted};
ghost use Rattle.tks_durable.specs.Crash as durable;
ghost use Rattle.tks_durable.specs.Opening as opening;
ghost use Rattle.tks_state.specs.World.{World};
ghost use Rattle.tks_session.specs.Crash.{KeepsAcknowledged, LeadsBehind, LeadsByFirst, LeavesPrefixes, Lives, OpensToCount, opens};
ghost use Rattle.tks_session.specs.Sessions.{SessionState, Setting};
ghost use Rattle.tks_session.specs.Terminals.{terminal};

use tks_disk::Disk;

/// What opening gives after a crash: where inputs waited behind a world, the world that is opened is the one that the first
/// of them lead to, each accepted whole, with all its scripts.
pub fn a_crash_leaves_whole_inputs()
    ensures { (app : Application) (limits : Limits) (grid : Extent) (start : World) (inputs : List Input) (images : Images) (world : World)
        → durable.OpensToPrefix (terminal app limits grid) (Ok start) inputs images → opening.opens (terminal app limits grid) images ≡ Ok world
        → LeadsByFirst app limits start inputs world }
{}

/// What opens within limits opens within wider ones, to the same world.
pub fn wider_limits_open()
    ensures { (app : Application) (limits wider : Limits) (grid : Extent) (images : Images) (world : World)
        → Wider limits wider → opening.opens (terminal app limits grid) images ≡ Ok world → opening.opens (terminal app wider grid) images ≡ Ok world }
{}

/// What a store of format 1 opens to, it opens to in format 2 as well, where each of its frames stands behind the number of its
/// inputs: a world of the one is a world of the other, and each input is stepped as it was accepted. (A checkpoint begins a side of
/// format 2: `Session::checkpoint` says so.)
pub fn formats_open_alike()
    ensures { (app : Application) (limits : Limits) (grid : Extent) (live : Side) (header : Header) (bytes : List ℕ) (bodies : List (List ℕ)) (world : World) → AllShort bodies
        → opening.opened (terminal app limits grid) (kept live One header bytes (Some bodies)) ≡ Ok world
        → opening.opened (terminal app limits grid) (kept live Two header bytes (Some (counted bodies))) ≡ Ok world }
{}

/// After a crash at any moment of any calls, a moment inside a write too, opening gives the windows, options, contents, bindings,
/// variables, queued events and timers that a prefix of the accepted inputs leaves, a prefix that holds every acknowledged input,
/// with no input's scripts standing in part. Here a session stood at a world with nothing waiting, as one that was opened does,
/// calls were made on it of which none failed, and then others of which one may have failed (`make_calls` tells both of any
/// calls, and `Session::stands` what is acknowledged between them); and the moment is one behind the first calls.
pub fn any_calls_keep_what_is_acknowledged<D: Disk>()
    ensures { (setting : Setting) (start mid new : SessionState D) (first second : List Input) (images : Images) (world : World)
        → opens setting (D.view start.journal.disk).reads ≡ Ok start.world → start.waiting ≡ []
        → Lives setting D.view start mid first → OpensToCount setting (D.view mid.journal.disk).reads mid.acknowledged
        → LeavesPrefixes setting D.view mid new second → (D.view new.journal.disk).left_since (D.view mid.journal.disk).clock images
        → opens setting images ≡ Ok world → KeepsAcknowledged setting start.world (first ++ second) mid.acknowledged world }
{}

/// What opening gives after a crash at any moment of a session's calls, a moment inside a write too: the windows, options,
/// contents, bindings, variables, queued events and timers that the first of the inputs that wait lead to, each accepted whole,
/// behind those that were acknowledged, all of them and nothing else. That what is read opens to those that were acknowledged is
/// what a session tells (`Session::stands`), and what a crash leaves is told by its calls.
pub fn a_crash_keeps_what_was_acknowledged()
    ensures { (app : Application) (limits : Limits) (grid : Extent) (reads : Images) (acknowledged : ℕ) (waiting : List Input) (images : Images) (world : World)
        → durable.OpensToCount (terminal app limits grid) reads acknowledged → durable.OpensToPrefix (terminal app limits grid) (opening.opens (terminal app limits grid) reads) waiting images
        → opening.opens (terminal app limits grid) images ≡ Ok world
        → LeadsBehind (record { app = app; limits = limits; grid = grid }) reads acknowledged waiting world }
{}
