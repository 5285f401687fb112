//! Laws of sequences and patterns.
ghost use Rattle.std.specs.Prelude.{◌≡◌, ◌↔◌, List, ℕ, Some, Ok, true};
ghost use Rattle.tks_event.specs.Canonical.{canonical};
ghost use Rattle.tks_event.specs.Sequences.{is_sequence};
ghost use Rattle.tks_event.specs.Numbers.{kind_number, kind_numbered};
ghost use Rattle.tks_event.specs.declared.kind.Kind.{Kind};
ghost use Rattle.tks_event.specs.declared.pattern.Pattern.{Pattern};
ghost use Rattle.tks_event.specs.declared.pattern.Repeated.{Repeated};
ghost use Rattle.tks_event.specs.Reading.{pattern_of, spelled_list, sequence_of};
ghost use Rattle.tks_event.specs.Spelling.{SpellsPattern, Spells};

/// Each text spells one list of patterns, the one that is read, or none.
pub fn one_sequence()
    ensures { (t : List ℕ) (ps : List Pattern) → Spells t ps ↔ (spelled_list t ≡ Some ps) }
{}

/// Each text spells one pattern alone, the one that is read, or none.
pub fn one_pattern()
    ensures { (t : List ℕ) (r : Repeated) → SpellsPattern t r ↔ (pattern_of t ≡ Some r) }
{}

/// The canonical spelling of each sequence spells that sequence.
pub fn canonical_spells()
    ensures { (ps : List Pattern) → is_sequence ps ≡ true → Spells (canonical ps) ps }
{}

/// The canonical spelling of each sequence is read as that sequence.
pub fn canonical_reads_back()
    ensures { (ps : List Pattern) → is_sequence ps ≡ true → sequence_of (canonical ps) ≡ Ok ps }
{}

/// Each kind has a number of its own, and is the one of that number.
pub fn kinds_have_numbers()
    ensures kept { (k : Kind) → kind_numbered (kind_number k) ≡ Some k }
    ensures made { (n : ℕ) (k : Kind) → kind_numbered n ≡ Some k → kind_number k ≡ n }
{}
