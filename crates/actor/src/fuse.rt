//! The fuse of a step, and the power cut that comes where it burns.

/// So many acts of a step are done before the power fails; so many unforced records are kept then.
#[derive(Clone, Copy, Debug, PartialEq, Eq)]
pub struct Fuse {
    pub acts: u8,
    pub kept: u8,
}

impl Fuse {
    /// No step has as many acts, so this fuse never burns.
    pub const LASTING: Fuse = Fuse {
        acts: u8::MAX,
        kept: 0,
    };
}

/// The power failed at the station that acts, after so many acts.
#[derive(Clone, Copy, Debug, PartialEq, Eq)]
pub struct PowerCut {
    pub after: u8,
}
