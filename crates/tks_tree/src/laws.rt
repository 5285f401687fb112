//! Laws of the tree of windows.
ghost use Rattle.std.specs.Prelude.{◌≡◌, ◌<◌, ℕ, Some, is_some, if◌then◌else◌};
ghost use Rattle.tks_tree.specs.Windows.{Windows, of_number, parent, preorder, times};
ghost use Rattle.tks_tree.specs.Laws.{GoesDown};
ghost use Rattle.tks_tree.specs.WellFormed.{WellFormed};

/// The preorder holds the number of each window once, and no other.
#[tactic(auto, using(crate::proofs::Once::each_once))]
pub fn preorder_holds_each_once()
    ensures { (t : Windows) (n : ℕ) → WellFormed t → times n (preorder t) ≡ (if is_some (of_number t.windows n) then 1 else 0) }
{}

/// The preorder goes down the tree: `.` is its first, and those that stand in a window follow it, child by child in the order
/// in which these were made, each right before those that stand in it.
pub fn preorder_goes_down_the_tree()
    ensures { (t : Windows) → WellFormed t → GoesDown t }
{}

/// A window was made after the one that it stands in.
pub fn windows_were_made_after_their_parents()
    ensures { (t : Windows) (n container : ℕ) → WellFormed t → parent t n ≡ Some container → container < n }
{}
