//! What follows of a real folder's state, as contracts see it. A caller's proof gets a law by calling its function, which does nothing.
ghost use Rattle.std.specs.Prelude.{◌≡◌, ℕ, None, nat_eq, map};
ghost use Rattle.std.specs.List.{list_any};
ghost use Rattle.ix_dir.specs.State.{is_staged};
ghost use Rattle.ix_host.specs.OnHost.{OnHost, state_on};

/// A folder tells no moves. A slot is staged exactly where its number is among those of the staged slots.
pub fn a_folder_tells_no_moves()
    ensures moves { (d : OnHost) → (state_on d).moves ≡ None }
    ensures staged { (d : OnHost) (slot : ℕ) → is_staged (state_on d) slot ≡ list_any (nat_eq slot) (map (λ entry. entry.0) d.staged) }
    ensures counts { (d : OnHost) → state_on d ≡ record (state_on d) { spare = d.spare; faults = d.faults; listings = d.listings; finds = d.finds } }
{}
