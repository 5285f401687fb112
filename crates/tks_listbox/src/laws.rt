//! Laws of listboxes.
ghost use Rattle.std.specs.Prelude.{ℕ, true, ◌≡◌, ◌+◌, ◌≤◌, ◌<◌, List, length, Some};
ghost use Rattle.tks_text.specs.declared.class.Class.TheVariants as class;
ghost use Rattle.tks_opt.specs.Options.{Options};
ghost use Rattle.tks_listbox.specs.Listbox.{Listbox, HasActive, restored, is_editable, inserted, deleted, selected_from};
ghost use Rattle.tks_listbox.specs.Laws.{SameActive, in_and_out, TakesOut, Rises};
ghost use Rattle.tks_listbox.specs.declared.item.Item.{Item};

/// The active item stays on its item where others come in.
pub fn active_stays_by_insertion()
    ensures { (l : Listbox) (place : ℕ) (texts : List (List ℕ)) → l.active < length l.items → place ≤ length l.items → SameActive l (inserted place texts l) }
{}

/// The active item stays on its item where others, before it or behind it, are deleted.
pub fn active_stays_by_deletion()
    ensures before { (l : Listbox) (front behind : ℕ) → behind ≤ length l.items → behind ≤ l.active → SameActive l (deleted front behind l) }
    ensures behind { (l : Listbox) (front behind : ℕ) → behind ≤ length l.items → l.active < front → SameActive l (deleted front behind l) }
{}

/// Items that are inserted and then deleted leave the listbox as it was: its items, which are selected, and the active one.
pub fn deletion_undoes_insertion()
    ensures { (l : Listbox) (place : ℕ) (texts : List (List ℕ)) → HasActive l.items l.active → place ≤ length l.items → in_and_out place texts l ≡ l }
{}

/// A deletion takes just its range: the items before it and those behind it are what they were, in their order.
pub fn deletion_keeps_the_others()
    ensures { (l : Listbox) (front behind : ℕ) → is_editable l ≡ true → front ≤ behind → behind ≤ length l.items → TakesOut front behind l (deleted front behind l) }
{}

/// The places of selected items rise, so none is told twice.
pub fn selected_places_rise()
    ensures { (items : List Item) (place : ℕ) → Rises place (selected_from place items) }
{}

/// A listbox is made again from what it has, and one that is made again has just what it is made from.
pub fn listboxes_are_restored()
    ensures kept { (l : Listbox) → l.options.class ≡ class.Listbox → HasActive l.items l.active → restored l.options l.items l.active ≡ Some l }
    ensures made { (options : Options) (items : List Item) (active : ℕ) (l : Listbox) → restored options items active ≡ Some l → (l ≡ record { options = options; items = items; active = active }) × (options.class ≡ class.Listbox) × HasActive items active }
{}
