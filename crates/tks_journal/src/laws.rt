//! Laws of what sides hold.
ghost use Rattle.std.specs.Prelude.{◌≡◌, ◌≢◌, ◌↔◌, ℕ, true, List, ◌∷◌, ◌++◌, length, Some, Ok};
ghost use Rattle.tks_spelling.specs.Format.{byte_of};
ghost use Rattle.tks_spelling.specs.declared.format.Format.{Format};
ghost use Rattle.tks_spelling.specs.declared.header.Header.{Header};
ghost use Rattle.tks_disk.specs.declared.disk.Side.{Side};
ghost use Rattle.tks_journal.specs.AreFrames.{AreFrames};
ghost use Rattle.tks_journal.specs.Journal.{SpelledAs};
ghost use Rattle.tks_journal.specs.Resting.{gives_way};
ghost use Rattle.tks_journal.specs.Sides.{is_given, face, frames, holds, pair, framed, AllShort};

/// The frames that are read behind a gate are those that stand there, and no others.
pub fn frames_stand()
    ensures { (bodies : List (List ℕ)) (bytes : List ℕ) → (frames bytes ≡ Some bodies) ↔ AreFrames bodies bytes }
{}

/// What is written is held: a side with an open gate, a format, a header, a world and frames of these bodies, a closed gate and whatever
/// stands behind it, beside a side that gives way to it.
pub fn written_is_held()
    ensures { (live : Side) (format : Format) (header : Header) (head world other : List ℕ) (bodies : List (List ℕ)) (gate : ℕ) (rest : List ℕ)
        → SpelledAs head header → is_given header.generation ≡ true → header.world_length ≡ length world
        → AllShort bodies → gate ≢ 1 → gives_way header.generation (face other) ≡ true
        → holds (pair live (1 ∷ byte_of format ∷ head ++ (world ++ (framed bodies ++ gate ∷ rest))) other)
        ≡ Ok (Some (record { live = live; format = format; header = header; world = world; bodies = bodies })) }
{}
