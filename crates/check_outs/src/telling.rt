//! What replies say of a claim's items and of its drafts.
ghost use Rattle.std.specs.Prelude.{◌≡◌, ◌≤◌, All, IfOk, map, length};
ghost use Rattle.std.specs.Option.{option_copied};
ghost use Rattle.vault_state.specs.Vault.{AreThere};
ghost use Rattle.vault_state.specs.Tree.{path_of};
ghost use Rattle.vault_model.specs.Step.{at_path};
ghost use Rattle.vault_state.specs.Shelf.{Draft};
ghost use Rattle.vault_state.specs.Drafts.{content_at};

use design_tree::Tree;
use std::alloc::Allocator;
use vault_model::{DraftIn, Item, Listing, NoMemory, Path, PathItem, PlaceId};

/// The items, each with the path of its place. It makes one memory request.
pub fn at_paths<A: Allocator>(
    alloc: A,
    tree: &Tree<A>,
    items: &[Item],
) -> Result<Listing<PathItem, A>, NoMemory>
    requires { AreThere tree.now items.now }
    ensures { IfOk result (λ told. told ≡ map (at_path tree.now) items.now) }
{
    let mut told = Vec::new(alloc);
    told.reserve(items.len()).map_err(|_| NoMemory)?;
    for item in items {
        told.push(PathItem {
            intent: item.intent,
            path: tree.path_of(item.place),
        })
        .map_err(|_| NoMemory)?;
    }
    Ok(Listing::from_vec(told))
}

/// The paths of the drafts' places. It makes one memory request.
pub fn paths_of<A: Allocator>(
    alloc: A,
    tree: &Tree<A>,
    drafts: &[DraftIn<A>],
) -> Result<Listing<Path, A>, NoMemory>
    requires { All (λ (x : Draft). x.place ≤ length tree.now) drafts.now }
    ensures { IfOk result (λ told. told ≡ map (λ (x : Draft). path_of tree.now x.place) drafts.now) }
{
    let mut told = Vec::new(alloc);
    told.reserve(drafts.len()).map_err(|_| NoMemory)?;
    for draft in drafts {
        told.push(tree.path_of(draft.place)).map_err(|_| NoMemory)?;
    }
    Ok(Listing::from_vec(told))
}

/// The content of a place's draft.
pub fn content_at<A: Allocator>(drafts: &[DraftIn<A>], place: PlaceId) -> Option<&[u8]>
    ensures { option_copied result ≡ content_at drafts.now place }
{
    for draft in drafts {
        if draft.place == place {
            return Some(draft.content.as_slice());
        }
    }
    None
}
