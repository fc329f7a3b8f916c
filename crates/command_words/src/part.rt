//! What may follow a word.

/// One thing that may follow a word. Flags and options come before or after the files.
#[derive(Clone, Copy)]
pub enum Part {
    /// A file, or another word, that has to be there; its name is that in the line of use.
    Needed(&'static str),
    /// One that may be left out. It comes after those that have to be there.
    Optional(&'static str),
    /// Any number of them, or none. They come last.
    Several(&'static str),
    /// `--NAME`.
    Flag(&'static str),
    /// `--NAME VALUE`.
    Valued(&'static str),
}
