//! The layouts of versions.

/// The number of node numbers of layout 1: a node has the last 8 bits of a version.
pub(crate) const OLD_NODES: u64 = 256;

/// The greatest clock of layout 1: it has the other 56 bits.
pub(crate) const LAST_OLD_CLOCK: u64 = (1 << 56) - 1;

/// The greatest clock of layout 2 that has a next one.
pub(crate) const LAST_EARLY_CLOCK: u64 = (1 << 48) - 2;

/// The layout of a file.
#[derive(Clone, Copy, Debug, PartialEq, Eq)]
pub enum Layout {
    /// Layout 2.
    Today,
    /// Layout 1, of which only versions are read that layout 2 has too, with a next one.
    Early,
}

/// The versions that a word may write.
#[derive(Clone, Copy, Debug, PartialEq, Eq)]
pub(crate) enum VersionSet {
    /// Those of layout 2.
    Layout2,
    /// Those of layout 1 that layout 2 has too, with a next one.
    Both,
    /// Those of layout 1, each as the version of layout 2 of the same number.
    Layout1,
}
