//! The reasons a line of a topology cannot be used.

use thiserror::Error;

/// The reason a line of a topology cannot be used (own).
#[derive(Clone, Copy, Debug, PartialEq, Error)]
pub enum Unfit {
    /// No line begins with the first word.
    #[error("the first word is not crtcs, plane, primary, cursor, encoder or connector")]
    FirstWord,
    /// A line above already sets the number of CRTCs.
    #[error("a line above already sets the number of CRTCs")]
    SecondCrtcs,
    /// A line of a plane or an encoder is above that of the CRTCs.
    #[error("no line above sets the number of CRTCs")]
    NoCrtcs,
    /// The number of CRTCs is not 1 to 8.
    #[error("the number of CRTCs must be one number from 1 to 8")]
    CrtcCount,
    /// A plane or an encoder names a CRTC that does not exist. The value is the number of CRTCs.
    #[error("a word is not the number of a CRTC, from 1 to {0}")]
    Crtc(u32),
    /// A primary or a cursor plane does not name its CRTC.
    #[error("a primary or cursor plane must name its CRTC first")]
    NoCrtcOfItsOwn,
    /// The CRTC already has a plane of this kind.
    #[error("a line above already defines such a plane of its CRTC")]
    SecondPlane,
    /// A connector names an encoder that no line above defines. The value is the number of encoders above.
    #[error("a connector must name one encoder of the lines above, from 1 to {0}")]
    Encoder(u32),
    /// The lines above already define 64 objects, the most of a topology.
    #[error("the lines above already define 64 objects, the most of a topology")]
    TooMany,
}
