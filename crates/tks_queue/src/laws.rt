//! What is stated of queues alone.
ghost use Rattle.std.specs.Prelude.{List, ◌⊎◌};
ghost use Rattle.tks_event.specs.Event.{Event};
ghost use Rattle.tks_queue.specs.EventQueue.{put_with_mark, BehindTheLast, First};
ghost use Rattle.tks_queue.specs.declared.queued.Queued.{Queued};

/// An event that is put at [`Place::Mark`](crate::Place::Mark) stands right behind the last one that was put so, or
/// first where there is none; all others stay as they were.
#[tactic(auto, using(crate::proofs::Putting::behind_the_last))]
pub fn mark_goes_behind_the_last()
    ensures { (e : Event) (queue : List Queued) → BehindTheLast e queue (put_with_mark e queue) ⊎ First e queue (put_with_mark e queue) }
{}
