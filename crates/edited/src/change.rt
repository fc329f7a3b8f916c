/// A change of a text: `passed` lines pass as they are, counted from where the change before it ended, or from the text's beginning;
/// then come the bytes `put`, and the `dropped` lines that come next are left out.
///
/// A line reaches through its LF. Where the text has fewer lines, its end stands for those that are missing.
#[derive(Drop)]
pub struct Change {
    pub passed: u64,
    pub put: Vec<u8>,
    pub dropped: u64,
}
