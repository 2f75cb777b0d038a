//! Effects of staged commands, noted in the store.
ghost use Rattle.std.specs.Prelude.{◌≡◌, IsTrue, IfSome, Some};
ghost use Rattle.vault_state.specs.Vault.{Vault};
ghost use Rattle.vault_model.specs.After.{after};
ghost use Rattle.vault_journal.specs.Spelling.{HasRecord};
ghost use Rattle.vault_store.specs.State.{StoreState, with_effect};
ghost use Rattle.vault_store.specs.Companions.{IsOfOneVault};
ghost use Rattle.vault_store.specs.Seen.{Keeps, has_room};
ghost use Rattle.group_commit.specs.Written.{IsOfItsType};
ghost use Rattle.group_commit.specs.Calls.{noted};

use std::alloc::Allocator;
use vault_device::Device;
use vault_model::{Effect, EffectIn};
use vault_store::Store;

// Does nothing. Its contract says what the effect has by its type.
fn see_name<A: Allocator>(effect: &EffectIn<A>)
    ensures { IsOfItsType effect.now }
{
    match effect {
        Effect::Made(_, name)
        | Effect::Nested(_, name)
        | Effect::Asked(_, name, _)
        | Effect::Given(_, name) => {
            let _ = name.as_bytes();
        }
        _ => {}
    }
}

/// Notes an effect, if there is one. Takes no memory.
pub(crate) fn note_any<D: Device, A: Allocator, B: Allocator>(
    store: &mut Store<D, A>,
    effect: Option<EffectIn<B>>,
)
    requires room { IsTrue (has_room store.old) }
    requires has { IfSome effect (λ e. IsOfItsType e → HasRecord e) }
    ensures noted { store.new ≡ noted effect store.old }
    ensures kept { IfSome effect (λ e. (s : StoreState) (next : Vault) → Keeps D.disk store.old s → after s.noted e ≡ Some next
        → Keeps D.disk store.new (with_effect s e next)) }
    ensures one_vault { IsOfOneVault D.disk store.old → IsOfOneVault D.disk store.new }
{
    let Some(effect) = effect else {
        return;
    };
    see_name(&effect);
    store.note(&effect);
    drop(effect);
}
