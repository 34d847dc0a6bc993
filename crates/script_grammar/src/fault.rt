// Why bytes are no script.

/// The first rule that a line of a script breaks.
#[derive(Clone, Copy, Debug, PartialEq, Eq)]
pub enum FaultKind {
    /// The line, or the whole source, is too long.
    TooLong,
    /// It has none of the shapes of a line.
    Word,
    /// Something else stands where a number belongs.
    Number,
    /// There are too many operations, declarations or lines.
    TooMany,
    /// A declaration comes late or twice, or a storage isn't declared.
    Declared,
    /// The operation is one of the other kind of storage.
    Kind,
    /// A number is out of its range.
    Range,
}

/// The first faulty line, counted from 1, and its fault; line 0 stands for the whole source.
#[derive(Clone, Copy, Debug, PartialEq, Eq)]
pub struct ScriptFault {
    pub line: u32,
    pub kind: FaultKind,
}

/// A line that is no line of a script here; why is told by its tests.
#[derive(Clone, Copy)]
pub(crate) struct ScriptRefused;
