//! Laws of text widgets.
ghost use Rattle.std.specs.Prelude.{◌≡◌, ◌↔◌, ℕ, Bool, true, false, ◌+◌, ◌^◌, ◌<◌, ◌≤◌, List, length, take, Some, None};
ghost use Rattle.tks_lines.specs.declared.parts.Mark.{Mark};
ghost use Rattle.tks_lines.specs.declared.parts.Tag.{Tag};
ghost use Rattle.tks_lines.specs.Places.{end_place};
ghost use Rattle.tks_lines.specs.Indices.{index_place};
ghost use Rattle.tks_lines.specs.IndexText.{IndexText};
ghost use Rattle.tks_lines.specs.Commands.{spelled};
ghost use Rattle.tks_lines.specs.Lines.{Lines, Formed, is_editable, put_in, deleted, moved_on};
ghost use Rattle.tks_opt.specs.Options.{Options};
ghost use Rattle.tks_lines.specs.Ranges.{ranges_of, flags_of, AreRanges};
ghost use Rattle.tks_lines.specs.Restoring.{restored};
ghost use Rattle.tks_lines.specs.declared.range.Range.{Range};
ghost use Rattle.tks_lines.specs.Laws.{in_and_out, GoesBefore, RangesOf, PutsIn, TakesOut};

/// Characters that are inserted and then deleted leave all as it was: the text, its tags and its marks.
pub fn deletion_undoes_insertion()
    ensures { (t : Lines) (place : ℕ) (more : List ℕ) → Formed t → place ≤ length t.text → in_and_out place more t ≡ t }
{}

/// A deletion up to the end leaves what stands before it, and the last newline.
pub fn last_newline_stays()
    ensures { (t : Lines) (place : ℕ) → is_editable t ≡ true → (deleted place (end_place t.text) t).text ≡ take place t.text }
{}

/// Where characters come in at a place, a mark with left gravity stays there, one with right gravity goes on, and marks stay
/// in order.
pub fn marks_stay_in_order()
    ensures stays { (m : Mark) (count : ℕ) → m.left ≡ true → moved_on m.place count m ≡ m }
    ensures goes_on { (m : Mark) (count : ℕ) → m.left ≡ false → (moved_on m.place count m).place ≡ m.place + count }
    ensures order { (m n : Mark) (place count : ℕ) → GoesBefore m n → GoesBefore (moved_on place count m) (moved_on place count n) }
{}

/// The ranges of a tag rise, none is empty, and none touches another; together they are just the characters that have it.
pub fn ranges_are_the_tagged()
    ensures { (on : List Bool) → RangesOf on }
{}

/// An index as a text widget tells it names the place that it tells, whatever marks there are.
pub fn told_index_names_its_place()
    ensures { (t : Lines) (place : ℕ) → length t.text < 2 ^ 63 → place ≤ end_place t.text → index_place t (spelled t.text place) ≡ Some place }
{}

/// A text is one index or none: it is read as the place that its base and its modifiers name, each taken for itself, and is
/// refused where it isn't made of such parts. So two readings of one text name the same place. Numbers in it may be of any size.
pub fn one_index()
    ensures read { (t : Lines) (word : List ℕ) (place : ℕ) → Formed t → length t.text < 2 ^ 63 → IndexText t word place ↔ (index_place t word ≡ Some place) }
    ensures one { (t : Lines) (word : List ℕ) (place other : ℕ) → Formed t → length t.text < 2 ^ 63 → IndexText t word place → IndexText t word other → place ≡ other }
{}

/// Character by character: where others come in, those before and behind are what they were, tags and all, and each of the new
/// ones has just the tags that it came with.
pub fn insertion_keeps_the_others()
    ensures { (t : Lines) (place : ℕ) (more : List ℕ) (test : Tag → Bool) → Formed t → place ≤ length t.text → PutsIn place more test t (put_in place more test t) }
{}

/// Character by character: where some go out, those before and behind are what they were, tags and all.
pub fn deletion_keeps_the_others()
    ensures { (t : Lines) (first last : ℕ) → Formed t → is_editable t ≡ true → first ≤ last → last ≤ length t.text → TakesOut first last t (deleted first last t) }
{}

/// Flags and ranges say the same: ranges have the flags that have them, flags the ranges that have them, and what has
/// ranges is of ranges that rise, of which none is empty and none touches another.
pub fn ranges_say_flags()
    ensures ranges { (len : ℕ) (ranges : List Range) → AreRanges len None ranges → ranges_of (flags_of len ranges) ≡ ranges }
    ensures flags { (on : List Bool) → flags_of (length on) (ranges_of on) ≡ on }
    ensures lawful { (on : List Bool) → AreRanges (length on) None (ranges_of on) }
    ensures long { (len : ℕ) (ranges : List Range) → AreRanges len None ranges → length (flags_of len ranges) ≡ len }
{}

/// A text widget is made again from what it has, and one that is made again has just what it is made from.
pub fn texts_are_restored()
    ensures kept { (t : Lines) → Formed t → restored t.options t.text t.tags t.marks ≡ Some t }
    ensures made { (options : Options) (text : List ℕ) (tags : List Tag) (marks : List Mark) (t : Lines) → restored options text tags marks ≡ Some t → (t ≡ record { options = options; text = text; tags = tags; marks = marks }) × Formed t }
{}
