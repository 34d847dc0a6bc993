// What a call may ask for.

/// The options of a run.
#[derive(Clone, Copy, Debug, PartialEq, Eq)]
pub struct RunOptions {
    /// How often a transaction is tried.
    pub tries: u32,
    /// How many slots there are.
    pub slots: u32,
    /// How many pages of snapshots stay in memory.
    pub snap: u32,
    /// Whether counts and sums are printed in place of a line for each transaction.
    pub brief: bool,
}

/// The arguments of `make`.
#[derive(Clone, Copy, Debug, PartialEq, Eq)]
pub struct MakeArguments {
    /// Where the generator begins.
    pub seed: u32,
    /// How many workers take turns.
    pub workers: u8,
    /// How many transactions there are.
    pub lines: u32,
}

/// What the words of a call ask for.
#[derive(Clone, Copy, Debug, PartialEq, Eq)]
pub enum Command {
    /// To run the script.
    Run(RunOptions),
    /// To tell what the database keeps.
    Dump,
    /// To tell which snapshots the database has.
    Snaps,
    /// To tell what the snapshot of this epoch has.
    Snap(u32),
    /// To make a script.
    Make(MakeArguments),
    /// Nothing that the program does, or help.
    Refused,
}
