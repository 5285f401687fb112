//! Where the lines of a text end: the places of its newlines, rising.
ghost use Rattle.std.specs.Prelude.{◌≡◌, ◌+◌, ◌-◌, ◌<◌, ◌≤◌, ◌^◌, ◌++◌, length, map, slice_get, OnOk};
ghost use Rattle.std.specs.List.{AllByRecursion};
ghost use Rattle.std.specs.List.Sorted.{IsNonDecreasingBy};
ghost use Rattle.tks_lines.specs.Breaks.{breaks_from, below};

use std::alloc::AllocError;

/// How many of rising places are below another.
pub(crate) fn below(places: &[usize], place: usize) -> usize
    requires { IsNonDecreasingBy (λ b. b) places.now }
    ensures value { result ≡ below place places.now }
    ensures bound { result ≤ length places.now }
{
    places.partition_point(|b| *b < place)
}

/// The place behind so many others.
pub(crate) fn place_behind(places: &[usize], others: usize) -> Option<usize>
    ensures { result ≡ slice_get places.now others }
{
    places.get(others).copied()
}

/// Adds the places of the newlines of a text that begins at a place.
pub(crate) fn push_breaks(
    places: &mut Vec<usize>,
    begin: usize,
    text: &[u8],
) -> Result<(), AllocError>
    requires { begin + length text.now < 2 ^ 64 }
    ensures { OnOk result (places.new.items ≡ places.old.items ++ breaks_from begin text.now) }
{
    let mut place = begin;
    for byte in text {
        if *byte == b'\n' {
            places.push(place)?;
        }
        place += 1;
    }
    Ok(())
}

// Each place as far behind one place as it was behind another.
fn move_each(places: &mut [usize], from: usize, to: usize)
    requires { AllByRecursion (λ b. b - from + to < 2 ^ 64) places.old }
    ensures { places.new ≡ map (λ b. b - from + to) places.old }
{
    for place in places.iter_mut() {
        *place = place.saturating_sub(from) + to;
    }
}

/// Adds places, each as far behind one place as it was behind another.
pub(crate) fn push_moved(
    places: &mut Vec<usize>,
    more: &[usize],
    from: usize,
    to: usize,
) -> Result<(), AllocError>
    requires { AllByRecursion (λ b. b - from + to < 2 ^ 64) more.now }
    ensures { OnOk result (places.new.items ≡ places.old.items ++ map (λ b. b - from + to) more.now) }
{
    let old = places.len();
    places.extend_from_slice(more)?;
    move_each(&mut places[old..], from, to);
    Ok(())
}
