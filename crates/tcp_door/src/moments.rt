//! Moments in time.

use std::time::Instant;

/// The first of two moments. None is never.
pub fn first_of(one: Option<Instant>, other: Option<Instant>) -> Option<Instant> {
    match (one, other) {
        (Some(one), Some(other)) => Some(if one < other { one } else { other }),
        (None, other) => other,
        (one, None) => one,
    }
}
