// Laws of plain words, for callers: they hold of all words, so the calls have nothing to do.
ghost use Rattle.std.specs.Prelude.{◌≡◌, ℕ, List};
ghost use Rattle.command_line.specs.Options.{command_of};
ghost use Rattle.command_line.specs.Plain.{IsPlain, IsPlainDump, IsPlainMake, IsPlainSnap, IsPlainSnaps};
ghost use Rattle.command_line.specs.declared.command.Command.TheVariants.{Run, Dump, Snaps, Snap, Make};
ghost use Rattle.command_line.specs.declared.command.MakeArguments.{MakeArguments};
ghost use Rattle.command_line.specs.declared.command.RunOptions.{RunOptions};

/// Plain words ask for a run with their numbers: no fault is found in them, and no number is out of
/// its range.
pub fn plain_words_run()
    ensures { (words : List (List ℕ)) (options : RunOptions) → IsPlain words options
        → command_of words ≡ Run options }
{}

/// Plain words for `dump` ask for it.
pub fn plain_words_dump()
    ensures { (words : List (List ℕ)) → IsPlainDump words → command_of words ≡ Dump }
{}

/// Plain words for `snaps` ask for the list of snapshots.
pub fn plain_words_snaps()
    ensures { (words : List (List ℕ)) → IsPlainSnaps words → command_of words ≡ Snaps }
{}

/// Plain words for `snap` ask for the snapshot of their epoch.
pub fn plain_words_snap()
    ensures { (words : List (List ℕ)) (epoch : ℕ) → IsPlainSnap words epoch
        → command_of words ≡ Snap epoch }
{}

/// Plain words for `make` ask for a script with their numbers.
pub fn plain_words_make()
    ensures { (words : List (List ℕ)) (arguments : MakeArguments) → IsPlainMake words arguments
        → command_of words ≡ Make arguments }
{}
