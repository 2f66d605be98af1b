//! What follows of sessions on a device, each on a function that does nothing.

ghost use Rattle.std.specs.Prelude.{◌≡◌};
ghost use Rattle.std.specs.List.{AllByRecursion};
ghost use Rattle.drm_model.specs.Run.{rows_of};
ghost use Rattle.drm_sessions.specs.Device.{DeviceSession, HasMemory, HaveSameInput, session_results};
ghost use Rattle.drm_sessions.specs.Device.{IsReadOut, OneBegins};
ghost use Rattle.drm_sessions.specs.Runs.{outcomes};
ghost use Rattle.drm_sessions.specs.declared.class.Class.{Class as AClass};

/// If no memory is refused, the results of a session are computed from the device's rows, the class and the frames that
/// were used.
pub fn results_follow_from_the_frames()
    ensures { (class : AClass) (one : DeviceSession class)
        → AllByRecursion HasMemory (outcomes one.did.answered)
        → outcomes one.did.answered ≡ session_results (rows_of one.before) class one.did.frames }
{}

/// If no memory is refused, the bytes written follow from the device's rows, the class and the bytes read. Of two
/// sessions with the same ones, what one wrote begins what the other wrote. They wrote the same if both used all whole
/// frames.
pub fn bytes_written_follow_from_bytes_read()
    ensures begins { (class : AClass) (one other : DeviceSession class) → HaveSameInput one other
        → OneBegins one.did.front other.did.front }
    ensures same { (class : AClass) (one other : DeviceSession class) → HaveSameInput one other
        → IsReadOut one.session.end → IsReadOut other.session.end
        → one.did.front ≡ other.did.front }
{}
