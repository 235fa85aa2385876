//! The ways in which bytes aren't a package or a joined package.

/// Why bytes aren't a package or a joined package; the tests come in this order.
#[derive(Clone, Copy, Debug, PartialEq, Eq)]
pub enum DamageKind {
    /// They don't begin with the format's magic.
    Magic,
    /// They are too short for a digest, or end with another one.
    Digest,
    /// No valid package, or joined package, is spelled by these bytes.
    Form,
}
