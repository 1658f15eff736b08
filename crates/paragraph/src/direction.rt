/// The direction of a paragraph.
#[derive(Clone, Copy)]
pub enum Direction {
    /// Level 0.
    LeftToRight,
    /// Level 1.
    RightToLeft,
}
