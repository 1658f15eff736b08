/// A span: its embedding level, and where its words stand in the table of words.
#[derive(Clone, Copy)]
pub struct Span {
    pub level: u8,
    pub offset: usize,
    pub len: usize,
}
