//! What holds of variables, in the words of scripts.
ghost use Rattle.std.specs.Prelude.{◌≡◌, ◌↔◌, List, ℕ, Some, IfOk};
ghost use Rattle.tks_vars.specs.Laws.{NamesElement, SetIsGot, SetLeavesOthers, UnsetIsGone, UnsetLeavesOthers, LinkReads, LinkWrites, FramesStay};
ghost use Rattle.tks_vars.specs.Names.{named, element};
ghost use Rattle.tks_vars.specs.Variables.{Variables, with_value, with_global_value, without, with_global_link, with_procedure, pushed, pushed_global, pushed_with, popped};
ghost use Rattle.tks_vars.specs.declared.procedure.Argument.{Argument};
ghost use Rattle.tks_vars.specs.declared.procedure.Procedure.{Procedure};

/// A text names an element just where it is the name of a variable, `(`, an index and `)`, and this is the first `(`.
pub fn an_element_has_an_index()
    ensures { (text variable index : List ℕ) → (named text ≡ Some (element variable index)) ↔ NamesElement text variable index }
{}

/// A variable or an element has the value that it was given; other variables and elements have what they had.
pub fn what_is_set_is_got()
    ensures got { (v new : Variables) (name value : List ℕ) → SetIsGot v name value new }
    ensures others { (v new : Variables) (name value : List ℕ) → SetLeavesOthers v name value new }
{}

/// A variable or an element that is taken out isn't there; other variables and elements have what they had.
pub fn what_is_unset_is_gone()
    ensures gone { (v new : Variables) (name : List ℕ) → UnsetIsGone v name new }
    ensures others { (v new : Variables) (name : List ℕ) → UnsetLeavesOthers v name new }
{}

/// A name that was made a link has the value of the global, and what it is given the global is given.
pub fn a_link_is_the_global()
    ensures reads { (v new : Variables) (name : List ℕ) → LinkReads v name new }
    ensures writes { (v new : Variables) (name : List ℕ) → LinkWrites v name new }
{}

/// A frame that is begun and ended leaves all as it was.
pub fn a_frame_leaves_nothing()
    ensures empty { (v : Variables) → popped (pushed v) ≡ v }
    ensures of_globals { (v : Variables) → popped (pushed_global v) ≡ v }
    ensures with_arguments { (v : Variables) (arguments : List Argument) → popped (pushed_with arguments v) ≡ v }
{}

/// A change of a variable or an element, of a global, of a link or of a procedure leaves all frames but the innermost, and
/// as many of them.
pub fn frames_stay()
    ensures given { (v : Variables) (name value : List ℕ) → IfOk (with_value v name value) (FramesStay v) }
    ensures given_to_global { (v : Variables) (name value : List ℕ) → IfOk (with_global_value v name value) (FramesStay v) }
    ensures taken { (v : Variables) (name : List ℕ) → IfOk (without v name) (FramesStay v) }
    ensures made_link { (v : Variables) (name : List ℕ) → IfOk (with_global_link v name) (FramesStay v) }
    ensures defined { (v : Variables) (name : List ℕ) (procedure : Procedure) → FramesStay v (with_procedure v name procedure) }
{}
