//! Laws of scripts, each on a function that does nothing.

ghost use Rattle.drm_runs.specs.Script.{ScriptsAreAnswered};

/// Proves that a script's results are its device's answers to the events of its lines. There is one event for each
/// command, in order. The device is empty at first and has the script's topology. The limits are not stated here.
pub fn scripts_are_answered()
    ensures { ScriptsAreAnswered }
{}
