//! Laws of the spellings.

ghost use Rattle.std.specs.Prelude.{ℕ};
ghost use Rattle.tks_event.specs.declared.held.Held.{Held};
ghost use Rattle.tks_event.specs.declared.kind.Kind.{Kind};
ghost use Rattle.tks_spelling.specs.Spelling.{Lawful};
ghost use Rattle.tks_codec_events.specs.Kind.{kind};
ghost use Rattle.tks_codec_events.specs.Sequence.{sequence};
ghost use Rattle.tks_codec_events.specs.Event.{event};
ghost use Rattle.tks_codec_events.specs.Bindings.{bindings};
ghost use Rattle.tks_codec_events.specs.Virtuals.{virtuals};
ghost use Rattle.tks_codec_events.specs.History.{history};
ghost use Rattle.tks_codec_events.specs.Queue.{queue};
ghost use Rattle.tks_codec_events.specs.Timers.{waiting};
ghost use Rattle.tks_codec_events.specs.Held.{held};

/// Each of these has one spelling, no spelling of one is a proper front of another of its kind, and what reading says
/// of bytes is what these spellings say.
pub fn spellings_are_lawful()
    ensures kinds { Lawful kind }
    ensures sequences { Lawful sequence }
    ensures events { Lawful event }
    ensures bindings { (next : ℕ) → Lawful (bindings next) }
    ensures virtuals { Lawful virtuals }
    ensures histories { Lawful history }
    ensures queues { Lawful queue }
    ensures waiting { (next : ℕ) → Lawful (waiting next) }
    ensures held { Lawful held }
{}

/// Each kind, and all that may be held down, has a spelling.
pub fn all_are_spelled()
    ensures kinds { (k : Kind) → kind.Legal k }
    ensures held { (h : Held) → held.Legal h }
{}
