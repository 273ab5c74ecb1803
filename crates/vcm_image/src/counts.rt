//! The header of an image.

use vcm_code::Version;

/// The version of an image, and how many variables, features, frames and statements it has.
#[derive(Clone, Copy)]
pub struct Counts {
    pub version: Version,
    pub variables: u16,
    pub features: u16,
    pub frames: u16,
    pub statements: u32,
}
