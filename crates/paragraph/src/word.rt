/// A word: whether it is blank, and where its glyphs stand in the table of glyphs.
#[derive(Clone, Copy)]
pub struct Word {
    pub blank: bool,
    pub offset: usize,
    pub len: usize,
}
