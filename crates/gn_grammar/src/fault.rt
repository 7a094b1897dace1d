// Why the bytes of a file spell no tree.

use gn_tokens::TokenError;

/// Why bytes spell no tree. Want of memory is none of it.
#[derive(Clone, Copy)]
pub enum SyntaxFault {
    /// The bytes cannot be cut into tokens, and the tokens before the error begin some file.
    Token(TokenError),
    /// No file begins with the tokens up to the one at this offset. The end of the bytes counts as a token, which stands behind the last byte.
    Unexpected(usize),
    /// The token at this offset makes the nesting exceed 200.
    TooDeep(usize),
}
