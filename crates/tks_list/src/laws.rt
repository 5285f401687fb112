//! Laws of lists.
ghost use Rattle.std.specs.Prelude.{◌≡◌, ◌↔◌, [], ◌∷◌, List, ℕ, Some};
ghost use Rattle.tks_list.specs.ListText.{Splits};
ghost use Rattle.tks_list.specs.Quoting.{backslashed, joined};
ghost use Rattle.tks_list.specs.Reading.{list_of};

/// Each text splits into one list, the one that is read, or into none.
pub fn one_list()
    ensures { (t : List ℕ) (l : List (List ℕ)) → Splits t l ↔ (list_of t ≡ Some l) }
{}

/// The join of a list splits into that list.
pub fn join_splits_back()
    ensures { (l : List (List ℕ)) → Splits (joined l) l }
{}

/// An element in backslash form is a list of that element alone.
#[tactic(auto, using(crate::proofs::Joined::backslashed_splits))]
pub fn backslash_form_splits_back()
    ensures { (e : List ℕ) → Splits (backslashed e) (e ∷ []) }
{}
