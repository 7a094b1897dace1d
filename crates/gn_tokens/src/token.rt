//! What a token is.

/// The kind of a token: an identifier, a reserved word, an integer, a string, or one of the marks.
#[derive(Clone, Copy, Debug, PartialEq, Eq)]
pub enum TokenKind {
    /// A letter or `_`, then letters, digits and `_`, but none of the reserved words.
    Identifier,
    /// `if`
    If,
    /// `else`
    Else,
    /// `true`
    True,
    /// `false`
    False,
    /// Digits without a leading zero, with `-` before them or not, within signed 64 bits; `-0` is none.
    Integer,
    /// Bytes between two `"`, in which each `$` is of an escape or an expansion.
    Str,
    /// `=`
    Assign,
    /// `+=`
    AddAssign,
    /// `-=`
    SubAssign,
    /// `+`
    Plus,
    /// `-`
    Minus,
    /// `==`
    Equal,
    /// `!=`
    NotEqual,
    /// `<`
    Less,
    /// `<=`
    LessEqual,
    /// `>`
    Greater,
    /// `>=`
    GreaterEqual,
    /// `&&`
    And,
    /// `||`
    Or,
    /// `!`
    Not,
    /// `.`
    Dot,
    /// `,`
    Comma,
    /// `(`
    OpenParen,
    /// `)`
    CloseParen,
    /// `[`
    OpenBracket,
    /// `]`
    CloseBracket,
    /// `{`
    OpenBrace,
    /// `}`
    CloseBrace,
}

/// A token of a file: its kind, and the offset of its first byte and of the byte behind its last one. A string's quotes are part of it.
#[derive(Clone, Copy, Debug, PartialEq, Eq)]
pub struct Token {
    /// What it is.
    pub kind: TokenKind,
    /// The offset of its first byte.
    pub start: usize,
    /// The offset behind its last byte.
    pub end: usize,
}

/// Why a file cannot be cut into tokens.
#[derive(Clone, Copy, Debug, PartialEq, Eq)]
pub enum TokenError {
    /// No token begins with the byte at this offset.
    BadByte(usize),
    /// The digits from this offset on, or the `-` and the digits, are no integer: they have a leading zero, are `-0` or outside signed 64 bits, or a letter or `_` follows directly.
    BadNumber(usize),
    /// The string whose opening quote stands at this offset is not closed before the end of its line.
    OpenString(usize),
    /// The `$` at this offset, in a string, is neither escaped nor of an expansion.
    BadDollar(usize),
}
