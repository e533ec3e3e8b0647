//! How bars are drawn.

/// How bars are drawn.
#[derive(Clone, Copy, PartialEq, Eq, Debug, Drop)]
pub struct Style {
    /// The length of a bar, in columns.
    pub cells: u16,
    /// Bars of `#` and dots, instead of blocks of Unicode.
    pub ascii: bool,
    /// Bars in colours.
    pub colour: bool,
}
