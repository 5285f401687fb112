//! Laws of scripts.
ghost use Rattle.std.specs.Prelude.{◌≡◌, ◌↔◌, List, ℕ};
ghost use Rattle.tks_parse.specs.Reading.{script_of};
ghost use Rattle.tks_parse.specs.Script.{Spells};
ghost use Rattle.tks_parse.specs.Tree.{Script};

/// Each text spells one script, and only one.
pub fn one_script()
    ensures { (t : List ℕ) (s : Script) → Spells t s ↔ (s ≡ script_of t) }
{}
