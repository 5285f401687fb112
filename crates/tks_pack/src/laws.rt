//! Laws of the packer.
ghost use Rattle.std.specs.Prelude.{List, ◌∷◌, ◌≡◌, ◌<◌, ◌≤◌, ◌^◌, ◌↔◌, ℕ, Bool, Some, true, IfSome};
ghost use Rattle.std.specs.List.{AllByRecursion};
ghost use Rattle.tks_pack.specs.declared.area.Extent.{Extent};
ghost use Rattle.tks_pack.specs.declared.line.Span.{Span};
ghost use Rattle.tks_pack.specs.declared.packing.Content.{Content};
ghost use Rattle.tks_pack.specs.declared.settings.Fill.{Fill};
ghost use Rattle.tks_pack.specs.declared.settings.Side.{Side};
ghost use Rattle.tks_pack.specs.declared.stretch.Stretch.{Stretch};
ghost use Rattle.tks_pack.specs.Laws.{LiesInside, InOrder, AllGet, AllAsk, AllHaveSizes, AllHaveCells, IsToldAs, told_size};
ghost use Rattle.tks_pack.specs.Numbers.{side_number, side_numbered, fill_number, fill_numbered};
ghost use Rattle.tks_pack.specs.Packer.{share, spans, request};
ghost use Rattle.tks_pack.specs.Packing.{places, horizontals, verticals, requested};
ghost use Rattle.tks_pack.specs.Requests.{request_with};
ghost use Rattle.tks_pack.specs.Stretch.{takes_share};

/// Each mapped window has at least a cell, and lies inside its container.
pub fn windows_lie_inside()
    ensures { (size : ℕ → Extent) (container : Extent) (contents : List Content) → AllByRecursion (LiesInside container) (places size container contents) }
{}

/// Each window lies nearer to its side than all that are packed after it, whatever their sides are; so no two
/// windows overlap, and those on one side stand in the order in which they are packed.
pub fn windows_stand_in_order()
    ensures { (size : ℕ → Extent) (container : Extent) (contents : List Content) → InOrder contents (places size container contents) }
{}

/// What an expanding content gets beyond what it asks for is the most that it and all such contents behind it could
/// get alike, so that each content still gets what it asks for; where not even a cell fits, it is nothing.
pub fn share_is_the_most_that_fits()
    ensures { (r x : ℕ) (s : Stretch) (rest : List Stretch) → takes_share s ≡ true → 1 ≤ x → (x ≤ share r s rest) ↔ (request_with x (s ∷ rest) ≤ r) }
{}

/// Along an axis, each window gets the length that it asks for just where the container has the length that they ask for
/// together: in less, one doesn't.
pub fn request_is_the_least_that_fits()
    ensures { (cavity : Span) (contents : List Stretch) → AllAsk contents → AllGet contents (spans cavity contents) ↔ (request contents ≤ cavity.length) }
{}

/// In a container as large as its contents ask for, each window has its size.
pub fn windows_have_their_sizes()
    ensures { (size : ℕ → Extent) (container : Extent) (contents : List Content) → AllHaveCells size contents → request (horizontals size contents) ≤ container.width → request (verticals size contents) ≤ container.height → AllHaveSizes size contents (places size container contents) }
{}

/// A container tells of the cells that its contents ask for, and of 2^32 - 1 where they are more. Nothing shows which of its
/// contents told of so many in place of more: neither what it tells of itself, nor any place in it, where it has fewer than
/// 2^32 cells along each axis.
pub fn untold_cells_show_nowhere()
    ensures told { (size : ℕ → Extent) (propagates : Bool) (contents : List Content) → IfSome (requested size propagates contents) (λ asked. IsToldAs (request (horizontals size contents)) asked.width × IsToldAs (request (verticals size contents)) asked.height) }
    ensures requests { (size : ℕ → Extent) (propagates : Bool) (contents : List Content) → requested (λ window. told_size (size window)) propagates contents ≡ requested size propagates contents }
    ensures places { (size : ℕ → Extent) (container : Extent) (contents : List Content) → container.width < 2 ^ 32 → container.height < 2 ^ 32 → places (λ window. told_size (size window)) container contents ≡ places size container contents }
{}

/// Each side has a number of its own, and is the one of that number.
pub fn sides_have_numbers()
    ensures kept { (s : Side) → side_numbered (side_number s) ≡ Some s }
    ensures made { (n : ℕ) (s : Side) → side_numbered n ≡ Some s → side_number s ≡ n }
{}

/// Each way of filling has a number of its own, and is the one of that number.
pub fn fills_have_numbers()
    ensures kept { (f : Fill) → fill_numbered (fill_number f) ≡ Some f }
    ensures made { (n : ℕ) (f : Fill) → fill_numbered n ≡ Some f → fill_number f ≡ n }
{}
