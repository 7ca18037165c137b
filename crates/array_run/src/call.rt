// The calls of an array as values, so that a list of them can be run.

/// What a caller holds: tickets and permits of three kinds.
#[derive(Clone, Copy, PartialEq, Eq, Debug)]
pub enum TokenKind {
    /// A resync ticket.
    Resync,
    /// A ready permit.
    Ready,
    /// A short permit.
    Short,
}

/// A call of an array. A call that works on a ticket or permit takes one of that kind from the tokens.
#[derive(Clone, Copy)]
pub enum Call<'a> {
    PowerOn,
    Format,
    Open,
    OpenShort { absent: usize },
    Step,
    Finish,
    Write { block: usize, bytes: &'a [u8] },
    /// Reads into a new buffer of so many zeros.
    Read { block: usize, length: usize },
    /// Reads without the absent member into a new buffer of so many zeros.
    ReadShort { block: usize, length: usize },
    Destage,
    Flush,
    Close,
    /// Hands in a ticket or permit of this kind.
    GiveUp(TokenKind),
}
