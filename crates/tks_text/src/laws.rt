//! Laws of texts.
ghost use Rattle.std.specs.Prelude.{◌≡◌, ◌↔◌, List, ℕ, ℤ, Some, Ok, true};
ghost use Rattle.std.specs.Fmt.{signed_decimal};
ghost use Rattle.tks_text.specs.Backslash.{Escapes, escaped};
ghost use Rattle.tks_text.specs.Integer.{SpellsInteger, integer_value, fits_i64, integer_of};
ghost use Rattle.tks_text.specs.Limits.{Wider, format1, format2};

/// Each text spells one integer, the one that is read, or none.
pub fn one_integer()
    ensures { (t : List ℕ) (z : ℤ) → SpellsInteger t z ↔ (integer_value t ≡ Some z) }
{}

/// The decimal spelling of an integer of 64 bits is read as that integer.
pub fn decimal_reads_back()
    ensures { (z : ℤ) → fits_i64 z ≡ true → integer_of (signed_decimal z) ≡ Ok (Some z) }
{}

/// Behind each backslash stands one escape: the character that is read, of so many bytes.
pub fn one_escape()
    ensures { (t : List ℕ) (c n : ℕ) → Escapes t c n ↔ (escaped t ≡ (c, n)) }
{}

/// The limits that go with files of format 2 are wider than those of format 1.
pub fn wider_with_format2()
    ensures { Wider format1 format2 }
{}
