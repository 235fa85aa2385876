//! Why words aren't read as a command.

/// Why words aren't read as a command.
#[derive(Clone, Copy, Debug, PartialEq, Eq)]
pub enum WordStop {
    /// They are no command.
    Usage,
    /// They are a command, and memory ran out.
    NoMemory,
}
