//! Laws of the shelf's definitions.
ghost use Rattle.std.specs.Prelude.{◌≡◌, ℕ, ◌+◌, ◌≤◌, ◌==◌, ◌↔◌, true, List, [], ◌++◌, length, map, filter, All};
ghost use Rattle.vault_state.specs.Shelf.{Draft, versions_of, shelved_all, weight, drafts_weight, is_shelvable, IsShelf};
ghost use Rattle.vault_state.specs.Limits.{longest_content, most_versions, most_weight};

/// After shelving, a place has the versions that it had, then the contents of its drafts in order, and nothing else.
pub fn drafts_follow_versions()
    ensures { (shelf : List (List (List ℕ))) (drafts : List Draft) (place : ℕ) →
        versions_of (shelved_all shelf drafts) place
        ≡ versions_of shelf place ++ map (λ (draft : Draft). draft.content) (filter (λ (draft : Draft). draft.place == place) drafts) }
{}

/// Drafts add exactly their weight to the shelf's.
pub fn weights_add_up()
    ensures { (shelf : List (List (List ℕ))) (drafts : List Draft) →
        weight (shelved_all shelf drafts) ≡ weight shelf + drafts_weight drafts }
{}

/// A shelf of no versions is well formed, and a shelf stays so with drafts that may be shelved.
pub fn shelves_stay_well_formed()
    ensures none { IsShelf [] }
    ensures more { (shelf : List (List (List ℕ))) (drafts : List Draft) →
        IsShelf shelf → is_shelvable shelf drafts ≡ true → IsShelf (shelved_all shelf drafts) }
{}
