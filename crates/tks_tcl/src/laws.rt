//! Laws of commands that run no script.
ghost use Rattle.std.specs.Prelude.{◌≡◌, ℕ, List, [], ◌∷◌};
ghost use Rattle.std.specs.List.{slice_get};
ghost use Rattle.tks_tcl.specs.Index.{Index, range};
ghost use Rattle.tks_tcl.specs.Laws.{AnswersStay, OthersStay, ErrorsChangeNothing, LeavesFrames, JoinsBack, member_of_range, FindsFirst, MissesNone};
ghost use Rattle.tks_text.specs.Limits.{Wider};
ghost use Rattle.tks_text.specs.declared.limits.Limits.{Limits};

/// Wider limits keep each answer.
pub fn wider_limits_keep_answers()
    ensures answers { (limits wider : Limits) → Wider limits wider → AnswersStay limits wider }
    ensures others { (limits wider : Limits) → OthersStay limits wider }
{}

/// A command that ends with an error of its own has changed no variable.
pub fn errors_change_nothing()
    ensures { ErrorsChangeNothing }
{}

/// A command leaves all frames but the innermost, and as many of them.
pub fn commands_leave_frames()
    ensures { LeavesFrames }
{}

/// A text that is split at a character, or into its characters, and joined by the same is the text.
pub fn fields_join_back()
    ensures character { (c : ℕ) → JoinsBack (c ∷ []) }
    ensures each { JoinsBack [] }
{}

/// A range has the members of the list from its first place on, and none behind its last.
pub fn a_range_goes_place_by_place()
    ensures { (first last : Index) (l : List (List ℕ)) (k : ℕ) → slice_get (range first last l) k ≡ member_of_range first last l k }
{}

/// A search finds the first member that is the value, and none just where none is.
pub fn a_search_finds_the_first()
    ensures found { (value : List ℕ) (l : List (List ℕ)) → FindsFirst value l }
    ensures missing { (value : List ℕ) (l : List (List ℕ)) → MissesNone value l }
{}
