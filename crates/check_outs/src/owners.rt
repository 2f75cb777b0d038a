//! Who owns a claim.
ghost use Rattle.std.specs.Prelude.{◌≡◌};
ghost use Rattle.vault_model.specs.Step.{is_designer, is_owned_by};

use vault_model::{Name, Owner, Session};

/// Whether the owner is this designer.
pub fn is_designer(owner: &Owner, name: &Name) -> bool
    ensures { result ≡ is_designer name.now owner.now }
{
    match owner {
        Owner::Designer(other) => other == name,
        Owner::Session(_) => false,
    }
}

/// Whether the owner is this session, or its designer.
pub fn is_owned_by(owner: &Owner, session: &Session) -> bool
    ensures { result ≡ is_owned_by session.now owner.now }
{
    match owner {
        Owner::Designer(other) => *other == session.name,
        Owner::Session(number) => *number == session.number,
    }
}
