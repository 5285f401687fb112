//! Laws of options.
ghost use Rattle.std.specs.Prelude.{◌≡◌, ℕ, List, Some};
ghost use Rattle.tks_text.specs.declared.class.Class.{Class};
ghost use Rattle.tks_opt.specs.declared.anchor.Anchor.{Anchor};
ghost use Rattle.tks_opt.specs.Numbers.{anchor_number, anchor_numbered, class_number, class_numbered};
ghost use Rattle.tks_opt.specs.Laws.{LastWins};
ghost use Rattle.tks_opt.specs.Options.{Options, Legal, values_in_order, restored};

/// Options are made again from the values that they have, and those that are made from values have just these.
pub fn options_are_restored()
    ensures kept { (t : Options) → Legal t → restored t.class (values_in_order t) ≡ Some t }
    ensures made { (c : Class) (values : List (List ℕ)) (t : Options) → restored c values ≡ Some t → (t.class ≡ c) × (values_in_order t ≡ values) × Legal t }
{}

/// Each anchor has a number of its own, and is the one of that number.
pub fn anchors_have_numbers()
    ensures kept { (a : Anchor) → anchor_numbered (anchor_number a) ≡ Some a }
    ensures made { (n : ℕ) (a : Anchor) → anchor_numbered n ≡ Some a → anchor_number a ≡ n }
{}

/// Each class has a number of its own, and is the one of that number.
pub fn classes_have_numbers()
    ensures kept { (c : Class) → class_numbered (class_number c) ≡ Some c }
    ensures made { (n : ℕ) (c : Class) → class_numbered n ≡ Some c → class_number c ≡ n }
{}

/// `configure` gives each option the last value that the pairs have for it, and leaves those that none names.
pub fn the_last_value_is_told()
    ensures { (t u : Options) (pairs : List (List ℕ × List ℕ)) → LastWins t pairs u }
{}
