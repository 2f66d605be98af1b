//! Sources and sinks with a cut at a given place.

ghost use Rattle.std.specs.Prelude.{◌≡◌, [], Some};
ghost use Rattle.drm_frames.specs.Streams.{no_calls};
ghost use Rattle.drm_test_support.specs.Cuts.{left_by};

use crate::sink::CutSink;
use crate::source::CutSource;

/// The place where a source or a sink fails, ends or is interrupted. Places are counted in bytes from the beginning.
#[derive(Clone, Copy)]
pub enum Cut {
    /// Nowhere.
    Never,
    /// A source ends there, and a sink takes nothing more.
    End(usize),
    /// It fails there for good.
    Fault(usize),
    /// It is interrupted there this many times in a row.
    Interrupted(u64, usize),
    /// It is interrupted this many times in a row before each byte.
    Interruptions(u64),
}

/// Returns a source of these bytes with this cut. A call returns at most `piece` bytes, or one if that is 0.
pub fn source_of(bytes: &[u8], piece: usize, cut: Cut) -> CutSource<'_>
    ensures left { result.left ≡ Some (left_by cut bytes.now) }
    ensures counts { result.counts ≡ no_calls }
{
    let source = CutSource::new(bytes, if piece == 0 { 1 } else { piece });
    match cut {
        Cut::Never => source,
        Cut::End(at) => source.ending_at(at),
        Cut::Fault(at) => source.faulting_at(at),
        Cut::Interrupted(times, at) => source.interrupted(times, at),
        Cut::Interruptions(times) => source.interrupted_every(times, 1),
    }
}

/// Returns an empty sink of up to 512 bytes with this cut. A call takes at most `piece` bytes, or one if that is 0.
pub fn sink_of(piece: usize, cut: Cut) -> CutSink<512>
    ensures written { result.written ≡ Some [] }
    ensures counts { result.counts ≡ no_calls }
{
    let sink = CutSink::new(if piece == 0 { 1 } else { piece });
    match cut {
        Cut::Never => sink,
        Cut::End(at) => sink.refusing_at(at),
        Cut::Fault(at) => sink.faulting_at(at),
        Cut::Interrupted(times, at) => sink.interrupted(times, at),
        Cut::Interruptions(times) => sink.interrupted_every(times, 1),
    }
}
