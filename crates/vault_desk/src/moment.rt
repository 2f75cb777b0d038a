//! The rule by which the past of a vault is kept: it only grows, moment by moment.

use group_commit::Vault;
use logbook::{Gain, Plain, Play, Rule};
use std::alloc::Allocator;
use std::marker::Model;
use vault_device::Device;

/// A vault at one moment, which contracts see as its view. No value of it is made.
pub struct Moment {
    _nothing: (),
}

impl Model for Moment {
    ghost use Rattle.vault_state.specs.Vault.{new_vault};
    ghost use Rattle.group_commit.specs.View.{View, opened_view};

    ghost Value = { View };

    ghost view = { λ _. opened_view new_vault };
}

/// How long a past is, is a word that its owner has.
pub struct Law;

impl Rule<Moment, u64> for Law {
    ghost use Rattle.std.specs.Prelude.{[]};
    ghost use base.Fml.{ftrue};
    ghost use Rattle.vault_desk.specs.Sights.{IsKept};

    ghost holds = { λ cells log. IsKept cells log };

    ghost first = { [] };

    ghost hinted = { λ n log. Unit {0} };

    ghost shows = { λ log. [] };

    ghost keeps = { λ names log. ftrue };

    ghost moves = { λ ask before after answer. Unit {0} };
}

/// Who adds to a past trades nothing.
pub struct Nothing;

impl Gain<Moment, u64> for Nothing {
    ghost use base.Fml.{ftrue};

    ghost after = { λ names about answer. ftrue };
}

/// A step that adds a moment.
pub struct Add;

impl Play<Moment, u64> for Add {
    ghost use Rattle.vault_desk.specs.Sights.{Adds};

    ghost then = { Adds };
}

/// What it adds: the vault as it is.
impl<D: Device, A: Allocator> Plain<Vault<D, A>, Moment, u64> for Add {
    ghost use Rattle.std.specs.Prelude.{None};

    ghost ask = { λ vault. vault.view };

    ghost state = { λ vault. None };
}
