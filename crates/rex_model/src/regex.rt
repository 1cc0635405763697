/// A regular expression, which lies in an arena. Its language is `Language` of its `meaning`.
#[derive(Clone, Copy)]
pub enum Regex<'a> {
    /// This string alone; the empty string is the empty word.
    Bytes(&'a [u8]),
    /// One byte of a set: byte b is in it where bit b % 64 of word b / 64 is set.
    Class([u64; 4]),
    /// A word of each part, one after the other.
    Seq(&'a [Regex<'a>]),
    /// A word of one of the alternatives; none where there are none.
    Alt(&'a [Regex<'a>]),
    /// Any number of words of the part.
    Star(&'a Regex<'a>),
    /// One or more words of the part.
    Plus(&'a Regex<'a>),
    /// A word of the part, or the empty word.
    Opt(&'a Regex<'a>),
}
