/// A mark of one byte.
#[derive(Clone, Copy, Debug, PartialEq, Eq)]
pub enum Mark {
    /// `(`
    ParenOpen,
    /// `)`
    ParenClose,
    /// `{`
    BraceOpen,
    /// `}`
    BraceClose,
    /// `,`
    Comma,
    /// `;`
    Semicolon,
    /// `=`
    Equals,
}

/// A piece of a file.
#[derive(Clone, Copy, Debug)]
pub enum Token<'a> {
    /// A blank of one byte, or a comment: `//` to the end of the line, or `/*` to `*/`.
    Gap,
    /// An ASCII letter or `_`, and the letters, digits and `_` behind it.
    Word(&'a [u8]),
    /// What stands between two quotes: UTF-8 without control characters.
    Text(&'a str),
    /// A decimal number, in thousandths.
    Number(i64),
    /// A mark.
    Mark(Mark),
    /// The end of the bytes.
    End,
    /// What is no token: a comment or a text that isn't closed, a number out of form or range, or another byte.
    Unreadable,
}
