//! Watches with their places.

ghost use Rattle.std.specs.Prelude.{◌+◌, ◌^◌, ◌<◌};

use crate::watches::Watch;

/// A watch, and its place in a list.
#[derive(Clone, Copy)]
pub struct PlacedWatch {
    pub place: usize,
    pub watch: Watch,
    ghost small: { place + 1 < 2 ^ 64 },
}
