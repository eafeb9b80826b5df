//! What every entry's line has.

/// Its board, its number in the board's journal, its seat, and the script's line that asked for it.
#[derive(Clone, Copy, Drop)]
pub(crate) struct Heading {
    pub board: u32,
    pub n: u64,
    pub seat: u32,
    pub line: Option<u32>,
}
