//! The words for the program and for the classes of listeners in what is logged.

ghost use Rattle.std.specs.Prelude.{◌≡◌};
ghost use Rattle.drm_traffic.specs.Classes as classes;

use drm_sessions::Class;

/// The name of the program in what is logged (own).
pub const PROGRAM: &str = "drm_server";

/// Returns the word for a listener's class, in fault lines and in what is logged (own).
pub fn class_word(class: Class) -> &'static str
    ensures { result.now ≡ classes.class_word class }
{
    match class {
        Class::Card => "card",
        Class::Render => "render",
        Class::Root => "root",
    }
}
