//! What one command did, before it is counted.

use std::alloc::Allocator;
use vault_model::{EffectIn, ReplyIn};

/// A command that was done.
#[derive(Drop)]
pub(crate) struct Done<A: Allocator> {
    pub reply: ReplyIn<A>,
    pub effect: Option<EffectIn<A>>,
}
