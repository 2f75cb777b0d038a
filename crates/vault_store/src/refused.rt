//! Refusals that hand the devices back.

/// Why there is no store, with both devices.
#[derive(Drop)]
pub struct Refused<D, E> {
    pub why: E,
    pub first: D,
    pub second: D,
}
