//! How many packets may be outstanding.
ghost use Rattle.std.specs.Prelude.{◌≡◌};
ghost use Rattle.link_model.specs.Window.{window};

/// The most packets that are outstanding at a time. ackIDs count modulo 32, so that more could not
/// be told apart.
pub const WINDOW: u8 = 31;

/// The constant is the window of the step tables.
#[tactic(auto, unfolding(crate::specs::Window::window))]
pub fn window_of_the_tables()
    ensures { WINDOW ≡ window }
{}
