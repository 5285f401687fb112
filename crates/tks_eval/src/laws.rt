//! Laws of evaluation.
ghost use Rattle.tks_eval.specs.Grammar.{ReadsIf, ReadsParameters};
ghost use Rattle.tks_eval.specs.Laws.{EndsStay, HostLeavesFrames, LeavesFrames, RunsAsHalves, TextIsOfSecondHalf, Unrolls, UpdatesLeaveNothing, UpdatesUnroll};
ghost use Rattle.tks_text.specs.Limits.{Wider};
ghost use Rattle.tks_text.specs.declared.limits.Limits.{Limits};

use crate::host::Host;

/// A script of two halves runs as the first half, and then, where that ended with code 0, as the second.
pub fn script_runs_as_its_halves<H: Host>()
    ensures halves { RunsAsHalves H.meaning }
    ensures text { TextIsOfSecondHalf H.meaning }
{}

/// Wider limits, more levels and more fuel keep each end, with so much more fuel left.
pub fn wider_limits_keep_ends<H: Host>()
    ensures { (limits wider : Limits) → Wider limits wider → EndsStay H.meaning limits wider }
{}

/// A loop is a test of its condition and, where that holds, its body, the script behind it, and the loop again.
pub fn loops_unroll<H: Host>()
    ensures { Unrolls H.meaning }
{}

/// `update` takes out the next of what waits, takes a step, does it, and goes on as an `update` does; where nothing waits it is
/// done.
pub fn updates_unroll<H: Host>()
    ensures { UpdatesUnroll H.meaning }
{}

/// Behind an `update` that ended nothing waits that it would do, and it ended with code 0 and the empty text, whatever the scripts
/// ended with that it ran.
pub fn updates_leave_nothing<H: Host>()
    ensures { UpdatesLeaveNothing H.meaning }
{}

/// A script that ends leaves all frames but the innermost, and as many of them, for each host whose commands do.
pub fn scripts_leave_frames<H: Host>()
    ensures { HostLeavesFrames H.meaning → LeavesFrames H.meaning }
{}

/// The words of `if` are a condition and a body, further ones behind `elseif`, and perhaps a last body, as the grammar has it;
/// words that aren't are no `if`.
pub fn words_of_if_follow_its_grammar()
    ensures { ReadsIf }
{}

/// A text says the parameters of a procedure just where it is a list of names, each alone or in a list with its default.
pub fn parameters_are_lists_of_names()
    ensures { ReadsParameters }
{}
