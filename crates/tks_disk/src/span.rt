//! Ranges of bytes.
ghost use Rattle.std.specs.Prelude.{◌≡◌};
ghost use Rattle.tks_disk.specs.MemorySide.{within, touched};

/// `len` bytes from `at` on.
#[derive(Clone, Copy)]
pub struct Span {
    pub at: usize,
    pub len: usize,
}

/// Whether this place is in the range.
fn contains(span: &Span, place: usize) -> bool
    ensures { result ≡ within span.now place }
{
    span.at <= place && place - span.at < span.len
}

/// Whether this place is in one of the ranges.
pub fn is_touched(spans: &[Span], place: usize) -> bool
    ensures { result ≡ touched spans.now place }
{
    for span in spans {
        if contains(span, place) {
            return true;
        }
    }
    false
}
