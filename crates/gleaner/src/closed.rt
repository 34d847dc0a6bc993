// What a glean begins with.
ghost use Rattle.std.specs.Prelude.{◌≡◌, ◌<◌};
ghost use Rattle.gleaner.specs.Glean.{bank_of as number_of, none_counted};

/// The closed log files, and what of them counts.
#[derive(Clone, Copy)]
pub struct Closed {
    /// Whether they are those of odd number.
    pub odd: bool,
    /// How many bytes of each worker's count.
    pub lengths: [u64; 8],
    /// The epoch at which they were closed: none of their counted commits is of a later one.
    pub epoch: u32,
}

/// The newest snapshot.
#[derive(Clone, Copy)]
pub struct Newest {
    /// The page of its catalogue.
    pub page: u32,
    pub epoch: u32,
}

/// Whether no bytes count.
pub(crate) fn count_nothing(lengths: &[u64; 8]) -> bool
    ensures { result ≡ none_counted lengths.now }
{
    lengths.iter().all(|length| *length == 0)
}

/// The number of a worker's closed log file.
pub(crate) fn bank_of(odd: bool, worker: usize) -> u8
    requires { worker < 8 }
    ensures { result ≡ number_of odd worker }
{
    if odd {
        return 2 * worker as u8 + 1;
    }
    2 * worker as u8
}
