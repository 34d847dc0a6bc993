// Laws of snapshots, as calls with nothing to do.
ghost use Rattle.std.specs.Prelude.{◌≡◌, ◌≤◌, ◌++◌, ℕ, List};
ghost use Rattle.serial_model.specs.State.{State};
ghost use Rattle.wire_form.specs.Pages.{Contents};
ghost use Rattle.snapshot_store.specs.Places.{Format, find, leaf_at, look_in};
ghost use Rattle.snapshot_store.specs.Content.{SnapshotStands, IsSnapshotContent};
ghost use Rattle.snapshot_store.specs.declared.place.PagePlace.{PagePlace};

/// A snapshot stands, and has the same content, whatever pages are added behind.
pub fn content_stays()
    ensures stands { (pages more : List (List ℕ)) (number : ℕ) (contents : Contents)
        → SnapshotStands pages number contents → SnapshotStands (pages ++ more) number contents }
    ensures content { (pages more : List (List ℕ)) (number : ℕ) (contents : Contents) (state : State)
        → SnapshotStands pages number contents → IsSnapshotContent pages number contents state
        → IsSnapshotContent (pages ++ more) number contents state }
{}

/// What is found at a key is the record of the one leaf that has the key in its range.
pub fn one_leaf()
    ensures { (F : Format) (pages : List (List ℕ)) (d key : ℕ) (p : PagePlace)
        → find F pages d key p ≡ look_in F pages key (leaf_at F pages d key p) }
{}
