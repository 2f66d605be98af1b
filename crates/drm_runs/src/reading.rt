//! The reading of a topology.

ghost use Rattle.std.specs.Prelude.{◌≡◌, ◌↔◌, [], ◌∷◌, IsOk, IfOk, IfErr, OnOk};
ghost use Rattle.std.specs.Result.{result_err};
ghost use Rattle.drm_script.specs.Words.{words_of};
ghost use Rattle.drm_runs.specs.Causes.{cause_of, AllFit, IsFirstUnfit};
ghost use Rattle.drm_runs.specs.TopologyLines.{lines_in};
ghost use Rattle.drm_runs.specs.Parts.{told_in};
ghost use Rattle.drm_runs.specs.Told.{told, joined, topology_told};

use crate::causes::Unfit;
use crate::parts::Parts;
use crate::words::{LineWord, is_comment, line_word};
use drm_modes::Topology;
use drm_script::{first_line, next_word};

/// The line of a topology that cannot be used, and the reason.
///
/// # Examples
///
/// ```rust
/// use drm_runs::{Unfit, UnfitLine, read_topology};
///
/// let Err(unfit) = read_topology(b"crtcs 1\nplane 2\n") else { return };
/// assert!(rt; unfit == UnfitLine { number: 2, cause: Unfit::Crtc(1) });
/// ```
#[derive(Clone, Copy, Debug, PartialEq)]
pub struct UnfitLine {
    /// The number of the line, from 1.
    pub number: u64,
    /// The reason.
    pub cause: Unfit,
}

/// Reads a line after those that define these parts.
#[tactic(auto, unfolding(crate::specs::Causes::cause_of))]
fn read_line(parts: &mut Parts, line: &[u8]) -> Result<(), Unfit>
    ensures cause { result_err result ≡ cause_of (told_in parts.old) (words_of line.now) }
    ensures told { OnOk result (told_in parts.new ≡ joined (told_in parts.old) (told (words_of line.now ∷ []))) }
{
    let Some((word, rest)) = next_word(line) else {
        return Ok(());
    };
    if is_comment(word) {
        return Ok(());
    }
    match line_word(word) {
        Some(LineWord::Crtcs) => parts.set_crtcs(rest),
        Some(LineWord::Plane) => parts.add_overlay(rest),
        Some(LineWord::Primary) => parts.add_primary(rest),
        Some(LineWord::Cursor) => parts.add_cursor(rest),
        Some(LineWord::Encoder) => parts.add_encoder(rest),
        Some(LineWord::Connector) => parts.add_connector(rest),
        None => Err(Unfit::FirstWord),
    }
}

/// Returns the topology that a text defines (own). Does not allocate.
///
/// Words are separated by spaces. Numbers are decimal digits without a sign. Lines without a word and comments (`#`)
/// are skipped. A line is one of these:
///
/// - `crtcs N`: the number of CRTCs, 1 to 8
/// - `plane CRTC..`, `primary CRTC..`, `cursor CRTC..`: a plane with the CRTCs that it can be on, by their numbers from
///   1. The first one has the primary or the cursor plane.
/// - `encoder CRTC..`: an encoder with the CRTCs that can drive it
/// - `connector ENCODER`: a connector with an encoder of a line above, by its place among the encoders from 1
///
/// Ids from 1 on are assigned to the CRTCs first, then to the planes, the encoders and the connectors.
///
/// # Errors
///
/// The first line that cannot be used after those above it. In a text without CRTCs, this is the line after the last
/// one.
///
/// # Examples
///
/// ```rust
/// use drm_runs::read_topology;
///
/// let Ok(topology) = read_topology(b"crtcs 1\nprimary 1\nencoder 1\nconnector 1\n") else { return };
/// assert!(rt; topology.object_count() == 4 && topology.encoder_of(4) == Some(3));
/// ```
pub fn read_topology(text: &[u8]) -> Result<Topology, UnfitLine>
    ensures fits { IsOk result ↔ AllFit (lines_in text.now) }
    ensures topology { IfOk result (λ topology. topology ≡ topology_told (told (lines_in text.now))) }
    ensures unfit { IfErr result (λ unfit. IsFirstUnfit (lines_in text.now) unfit) }
{
    let mut parts = Parts::new();
    let mut rest = text;
    let mut above = 0;
    'lines: while !rest.is_empty() {
        let (line, behind) = first_line(rest);
        if let Err(cause) = read_line(&mut parts, line) {
            return Err(UnfitLine {
                number: above + 1,
                cause,
            });
        }
        rest = behind;
        above += 1;
    }
    match parts.topology() {
        Some(topology) => Ok(topology),
        None => Err(UnfitLine {
            number: above + 1,
            cause: Unfit::NoCrtcs,
        }),
    }
}
