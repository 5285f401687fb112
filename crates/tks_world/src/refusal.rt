//! The refusal of an input whose scripts were stopped.
ghost use Rattle.std.specs.Prelude.{◌≡◌};
ghost use Rattle.tks_world.specs.Meets.{refused_by};

use tks_input::Refused;
use tks_tcl::Stop;

/// The refusal of an input whose scripts were stopped.
pub fn refused_by(stop: Stop) -> Refused
    ensures { result ≡ refused_by stop }
{
    match stop {
        Stop::Budget => Refused::Budget,
        Stop::Depth => Refused::Depth,
        Stop::TooLarge => Refused::TooLarge,
        Stop::NoMemory => Refused::NoMemory,
    }
}
