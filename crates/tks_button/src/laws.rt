//! Laws of checkbuttons and of captions.
ghost use Rattle.std.specs.Prelude.{ℕ, List, Bool, Some, Ok, map, ◌≡◌};
ghost use Rattle.tks_opt.specs.Options.{Options};
ghost use Rattle.tks_opt.specs.declared.name.OptionName.TheVariants as name;
ghost use Rattle.tks_opt.specs.declared.said.Said.{Said};
ghost use Rattle.tks_button.specs.Block.{lines};
ghost use Rattle.tks_button.specs.Checkbutton.{is_on, value_when, turned, called, marked, requested_width, requested_height, shown};
ghost use Rattle.tks_button.specs.Laws.{TellsOnFromOff, after_words, toggling, whole_row};
ghost use Rattle.tks_button.specs.Sizes.{size_of, text_of};

/// Where `-onvalue` and `-offvalue` differ, a variable that was set for on tells on, and one for off, off.
pub fn values_tell_on_from_off()
    ensures { (t : Options) (on : Bool) → TellsOnFromOff t → is_on t (Some (value_when t on)) ≡ on }
{}

/// Two toggles give back what was, where the two values differ and the variable has one of them.
pub fn two_toggles_give_back()
    ensures { (t : Options) (path : List ℕ) (on : Bool) → TellsOnFromOff t → after_words t (toggling path) (after_words t (toggling path) (value_when t on)) ≡ value_when t on }
{}

/// Words that turn a checkbutton are no error, and they change none of its options: the variable may be set before
/// they are called, or behind.
pub fn turning_is_no_error()
    ensures { (t : Options) (words : List (List ℕ)) (on then_on : Bool) → turned t words on ≡ Some then_on → (said : Said) × (called t words ≡ Ok (said, t)) }
{}

/// In the area that it asks for without a `-width`, each line of a checkbutton is shown whole behind what stands
/// before it, and no other row, wherever `-anchor` puts it.
pub fn lines_are_shown_whole()
    ensures { (t : Options) (on : Bool) → size_of t name.Width ≡ 0 → shown t (requested_width t) (requested_height t) on ≡ map (whole_row (requested_width t)) (marked on (lines (text_of t))) }
{}
