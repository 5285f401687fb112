//! Laws of entries.
ghost use Rattle.std.specs.Prelude.{ℕ, ◌+◌, ◌^◌, ◌<◌, ◌≤◌, List, length};
ghost use Rattle.tks_entry.specs.Entry.{Entry};
ghost use Rattle.tks_entry.specs.Laws.{in_and_out, StandsAs, cursor_column, ShowsCursor};
ghost use Rattle.tks_entry.specs.Shown.{requested_width};

/// Characters that are inserted and then deleted leave the text as it was, and the cursor where it stood.
pub fn deletion_undoes_insertion()
    ensures { (e : Entry) (place : ℕ) (more : List ℕ) → place ≤ length e.text → length e.text + length more < 2 ^ 32 → StandsAs e (in_and_out place more e) }
{}

/// An area that is as wide as the entry asks to be, or wider, shows the character behind the cursor.
pub fn cursor_is_shown()
    ensures inside { (e : Entry) → cursor_column e < requested_width e }
    ensures shown { (e : Entry) (width height : ℕ) → requested_width e ≤ width → 1 ≤ height → ShowsCursor e width height }
{}
