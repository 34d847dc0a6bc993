// A law of compositions, as a call with nothing to do.
ghost use Rattle.std.specs.Prelude.{◌≡◌, ℕ, List, []};
ghost use Rattle.serial_model.specs.Keys.{id_of};
ghost use Rattle.wire_form.specs.declared.bucket.Entry.{Entry as TheEntry};
ghost use Rattle.wire_form.specs.declared.records.Stored.{Stored as TheStored};
ghost use Rattle.root_composer.specs.Storages.{part_of, IsStorageComposed};

/// A storage that the run has no entries of keeps its root, and with it each of its pages.
pub fn root_stays()
    ensures { (run : List TheEntry) (old new : List (List ℕ)) (depth : ℕ) (s t : TheStored)
        → IsStorageComposed (part_of (id_of s.decl) run) old new depth s t
        → part_of (id_of s.decl) run ≡ [] → t.root ≡ s.root }
{}
