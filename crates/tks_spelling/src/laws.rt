//! Laws of the spellings.

ghost use Rattle.std.specs.Prelude.{◌≡◌, ℕ, ◌<◌, ◌^◌, ◌++◌, ◌∷◌, [], List, codes};
ghost use Rattle.std.specs.List.{AllByRecursion, flat_map};
ghost use Rattle.tks_text.specs.Size.{IsGridSize};
ghost use Rattle.tks_text.specs.Short.{IsShort};
ghost use Rattle.tks_input.specs.declared.input.Input.{Input};
ghost use Rattle.tks_input.specs.declared.input.Input.TheVariants.{Script, Press};
ghost use Rattle.tks_spelling.specs.declared.header.Header.{Header};
ghost use Rattle.tks_spelling.specs.Spelling.{Lawful, text};
ghost use Rattle.tks_spelling.specs.Header.{AreNames, header};
ghost use Rattle.tks_spelling.specs.Input.{IsInput, input};

/// Each header has one spelling, no spelling of a header is a proper front of another, and what reading
/// says of bytes is what these spellings say.
pub fn one_header()
    ensures spelled { (h : Header) → h.generation < 2 ^ 64 → IsGridSize h.grid.width h.grid.height → AreNames h.names → IsShort h.names → AllByRecursion text.Legal h.names → h.world_length < 2 ^ 64 → header.Legal h }
    ensures one { (a b : Header) (x y : List ℕ) → header.Legal a → header.Legal b → header.write a ++ x ≡ header.write b ++ y → (a ≡ b) × (x ≡ y) }
    ensures lawful { Lawful header }
{}

/// Each input has one spelling, no spelling of an input is a proper front of another, and what reading
/// says of bytes is what these spellings say.
pub fn one_input()
    ensures spelled { (i : Input) → IsInput i → input.Legal i }
    ensures one { (a b : Input) (x y : List ℕ) → input.Legal a → input.Legal b → input.write a ++ x ≡ input.write b ++ y → (a ≡ b) × (x ≡ y) }
    // Inputs one behind the other are one list of inputs.
    ensures list { (xs ys : List Input) → AllByRecursion input.Legal xs → AllByRecursion input.Legal ys → flat_map input.write xs ≡ flat_map input.write ys → xs ≡ ys }
    ensures lawful { Lawful input }
{}

/// The script `set x 5`, and button 1 going down over the cell 3, 2, as bytes.
pub fn two_inputs()
    ensures script { input.write (Script (codes "set x 5")) ≡ 1 ∷ 0 ∷ 0 ∷ 0 ∷ 7 ∷ 115 ∷ 101 ∷ 116 ∷ 32 ∷ 120 ∷ 32 ∷ 53 ∷ [] }
    ensures press { input.write (Press 1 3 2) ≡ 4 ∷ 1 ∷ 0 ∷ 3 ∷ 0 ∷ 2 ∷ [] }
{}
