//! Laws of worlds.
ghost use Rattle.std.specs.Prelude.{◌≡◌, ℕ, List, Option, Some, true, length};
ghost use Rattle.tks_text.specs.Size.{Extent};
ghost use Rattle.tks_vars.specs.Variables.{Variables};
ghost use Rattle.tks_state.specs.FirstTable.{AreOf, first_table};
ghost use Rattle.tks_state.specs.Laws.{has_text, other_windows, Shows};
ghost use Rattle.tks_state.specs.Links.{link_of, seen, text_of};
ghost use Rattle.tks_state.specs.Standing.{LaysOut, StaysWithin};
ghost use Rattle.tks_state.specs.WellFormed.{WellFormed};
ghost use Rattle.tks_state.specs.World.{World, first_world, tagged};
ghost use Rattle.tks_state.specs.declared.widget.Widget.{Widget};

/// A widget with a text that is linked to a global shows the global's value of the moment, whatever came before.
pub fn linked_widget_shows_its_variable()
    ensures { (variables : Variables) (global : List ℕ) (w : Widget) → has_text w ≡ true → link_of w ≡ Some global → Shows variables global w }
{}

/// Two widgets that are linked to one global show one text.
pub fn widgets_of_one_variable_show_one_text()
    ensures { (variables : Variables) (global : List ℕ) (v w : Widget) → has_text v ≡ true → has_text w ≡ true → link_of v ≡ Some global → link_of w ≡ Some global → text_of (seen variables v) ≡ text_of (seen variables w) }
{}

/// A window is shown just where it stands: `.` on the whole grid, any other where the packer puts it in its container, if that is
/// shown; so its cells lie within those of its container.
pub fn windows_are_shown_where_they_stand()
    ensures cells { (w : World) → WellFormed w → LaysOut w }
    ensures within { (w : World) → StaysWithin w }
{}

/// Before any input there are just the twenty-five bindings of the table, in its order, each of the sequence that its text is
/// read as: none is lost to a fault, and none takes the place of another.
pub fn the_first_bindings_are_the_table()
    ensures bindings { (grid : Extent) (names : List (List ℕ)) → AreOf first_table (first_world grid names).bindings.bindings }
    ensures count { length first_table ≡ 25 }
{}

/// Other tags of a window leave all that is kept of other windows, in its order.
#[tactic(auto, using(crate::proofs::Tagging::tagged_stays))]
pub fn tags_are_of_one_window()
    ensures { (w : World) (number : ℕ) (tags : Option (List (List ℕ))) → other_windows number (tagged w number tags).kept ≡ other_windows number w.kept }
{}
