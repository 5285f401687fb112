//! Laws of the spelling of worlds.
ghost use Rattle.std.specs.Prelude.{◌≡◌, ◌++◌, ℕ, List, Ok};
ghost use Rattle.tks_text.specs.Size.{Extent};
ghost use Rattle.tks_spelling.specs.Spelling.{Lawful};
ghost use Rattle.tks_spelling.specs.declared.format.Format.{Format};
ghost use Rattle.tks_spelling.specs.declared.format.Format.TheVariants as formats;
ghost use Rattle.tks_codec.specs.World.{world, world_at};
ghost use Rattle.tks_state.specs.World.{World};
ghost use Rattle.tks_state.specs.declared.rules.Rules.TheVariants as rules;

/// In a side of either format and on each grid a world has one spelling, no spelling of a world is a proper front of another, and
/// what reading says of bytes is what these spellings say.
pub fn one_world()
    ensures one { (format : Format) (grid : Extent) (a b : World) (x y : List ℕ) → (world format grid).Legal a → (world format grid).Legal b → (world format grid).write a ++ x ≡ (world format grid).write b ++ y → (a ≡ b) × (x ≡ y) }
    ensures lawful { (format : Format) (grid : Extent) → Lawful (world format grid) }
{}

/// A world that is read in a side of the first format is read in one of the second too, as the same world with the same bytes behind
/// it; it goes by the first rules. Its bytes are the same in each format.
pub fn second_format_reads_the_first()
    ensures read { (grid : Extent) (bytes rest : List ℕ) (w : World) → world_at formats.One grid bytes ≡ Ok (w, rest) → world_at formats.Two grid bytes ≡ Ok (w, rest) }
    ensures rules { (grid : Extent) (bytes rest : List ℕ) (w : World) → world_at formats.One grid bytes ≡ Ok (w, rest) → w.rules ≡ rules.One }
    ensures bytes { (format : Format) (grid : Extent) (w : World) → (world format grid).write w ≡ (world formats.One grid).write w }
{}
