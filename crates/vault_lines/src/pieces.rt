//! Appending paths, items and claims to a text.

ghost use Rattle.std.specs.Prelude.{◌≡◌, ◌++◌, ◌∷◌, OnOk};
ghost use Rattle.std.specs.List.{flat_map};
ghost use Rattle.vault_state.specs.Path.{path_text};
ghost use Rattle.vault_lines.specs.Texts.{claim_text, item_text};

use itoa::Buffer;
use std::alloc::{AllocError, Allocator};
use vault_model::{ClaimId, Intent, Name, Path, PathItem};

/// Appends two runs of bytes to a text.
fn put<A: Allocator>(text: &mut Vec<u8, A>, bytes: &[u8], more: &[u8]) -> Result<(), AllocError>
    ensures { OnOk result (text.new.items ≡ text.old.items ++ (bytes.now ++ more.now)) }
{
    text.extend_from_slice(bytes)?;
    text.extend_from_slice(more)?;
    Ok(())
}

/// Appends names to a text, each after a slash.
fn put_names<A: Allocator>(text: &mut Vec<u8, A>, names: &[Name]) -> Result<(), AllocError>
    ensures { OnOk result (text.new.items ≡ text.old.items ++ flat_map (λ name. 47 ∷ name) names.now) }
{
    for name in names {
        put(text, b"/", name.as_bytes())?;
    }
    Ok(())
}

/// Appends a path to a text.
fn put_path<A: Allocator>(text: &mut Vec<u8, A>, path: &Path) -> Result<(), AllocError>
    ensures { OnOk result (text.new.items ≡ text.old.items ++ path_text path.now) }
{
    let names = path.names();
    if names.is_empty() {
        return put(text, b"/", b"");
    }
    put_names(text, names)
}

/// Appends a space and an item to a text.
fn put_item<A: Allocator>(text: &mut Vec<u8, A>, item: &PathItem) -> Result<(), AllocError>
    ensures { OnOk result (text.new.items ≡ text.old.items ++ 32 ∷ item_text item.now) }
{
    match item.intent {
        Intent::Look => text.extend_from_slice(b" r:")?,
        Intent::Change => text.extend_from_slice(b" w:")?,
    }
    put_path(text, &item.path)
}

/// Appends items to a text, each after a space.
pub(crate) fn put_items<A: Allocator>(
    text: &mut Vec<u8, A>,
    items: &[PathItem],
) -> Result<(), AllocError>
    ensures { OnOk result (text.new.items ≡ text.old.items ++ flat_map (λ item. 32 ∷ item_text item) items.now) }
{
    for item in items {
        put_item(text, item)?;
    }
    Ok(())
}

/// Appends a space and a claim to a text.
fn put_claim<A: Allocator>(text: &mut Vec<u8, A>, id: ClaimId) -> Result<(), AllocError>
    ensures { OnOk result (text.new.items ≡ text.old.items ++ 32 ∷ claim_text id) }
{
    match id {
        ClaimId::Long(number) => put(text, b" c", Buffer::new().format(number).as_bytes()),
        ClaimId::Short(number) => put(text, b" h", Buffer::new().format(number).as_bytes()),
    }
}

/// Appends claims to a text, each after a space.
pub(crate) fn put_claims<A: Allocator>(
    text: &mut Vec<u8, A>,
    ids: &[ClaimId],
) -> Result<(), AllocError>
    ensures { OnOk result (text.new.items ≡ text.old.items ++ flat_map (λ id. 32 ∷ claim_text id) ids.now) }
{
    for id in ids {
        put_claim(text, *id)?;
    }
    Ok(())
}

/// Appends paths to a text, each after a space.
pub(crate) fn put_drafts<A: Allocator>(
    text: &mut Vec<u8, A>,
    paths: &[Path],
) -> Result<(), AllocError>
    ensures { OnOk result (text.new.items ≡ text.old.items ++ flat_map (λ path. 32 ∷ path_text path) paths.now) }
{
    for path in paths {
        text.extend_from_slice(b" ")?;
        put_path(text, path)?;
    }
    Ok(())
}
