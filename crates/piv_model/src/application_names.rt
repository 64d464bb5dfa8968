//! The names by which the applications of the card are selected (SP 800-73-4 part 1, the PIV application's
//! identifier; the idle application is this project's own).
ghost use Rattle.std.specs.Prelude.{◌≡◌};
ghost use Rattle.piv_model.specs.ApplicationNames.{application_named};

use crate::kinds::Application;

/// The full name of the PIV application.
pub const FULL: [u8; 11] = [
    0xA0, 0x00, 0x00, 0x03, 0x08, 0x00, 0x00, 0x10, 0x00, 0x01, 0x00,
];

/// The truncated name of the PIV application: the full one without its version.
pub const TRUNCATED: [u8; 9] = [0xA0, 0x00, 0x00, 0x03, 0x08, 0x00, 0x00, 0x10, 0x00];

/// The name of the idle application.
pub const IDLE: [u8; 5] = [0xF0, 0x49, 0x44, 0x4C, 0x45];

/// The application of a name. PIV has two names, the full one and the truncated one.
#[tactic(auto, unfolding(crate::specs::ApplicationNames::application_named))]
pub fn application_by_name(name: &[u8]) -> Option<Application>
    ensures { result ≡ application_named name.now }
{
    if name == FULL.as_slice() || name == TRUNCATED.as_slice() {
        return Some(Application::Piv);
    }
    if name == IDLE.as_slice() {
        return Some(Application::Idle);
    }
    None
}
