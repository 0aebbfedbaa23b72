// The parts of a text.
ghost use Rattle.std.specs.Prelude.{◌≡◌, drop, position};
ghost use Rattle.texts.specs.Tokens.{spacing, separates, numeric, front, part_of, shown};

// A word, a number or a bracket. Words and numbers are the bytes of the text that they stand in.
#[derive(Clone, Copy, PartialEq, Eq, Debug)]
pub enum Token<'a> {
    Word(&'a [u8]),
    Number(&'a [u8]),
    Open,
    Close,
}

// Whether a byte is a blank or a line end.
fn is_spacing(b: u8) -> bool
    ensures { result ≡ spacing b }
{
    b == b' ' || b == b'\n'
}

// Whether a byte is a blank, a line end or a bracket.
fn is_separator(b: u8) -> bool
    ensures { result ≡ separates b }
{
    is_spacing(b) || b == b'(' || b == b')'
}

// Whether a number may begin with a byte.
fn is_numeric(b: u8) -> bool
    ensures { result ≡ numeric b }
{
    b == b'-' || b >= b'0' && b <= b'9'
}

// Where the first blank, line end or bracket stands.
fn separator(bytes: &[u8]) -> Option<usize>
    ensures { result ≡ position separates bytes.now }
{
    bytes.iter().position(|b| is_separator(*b))
}

// The bytes before the first blank, line end or bracket.
fn unbroken<'a>(bytes: &'a [u8]) -> &'a [u8]
    ensures { result.now ≡ front bytes.now }
{
    &bytes[..separator(bytes).unwrap_or(bytes.len())]
}

// The part that stands at a place; none at a blank, at a line end, or past the text.
pub fn part_at<'a>(bytes: &'a [u8], at: usize) -> Option<Token<'a>>
    ensures { shown result ≡ part_of (drop at bytes.now) }
{
    if at >= bytes.len() {
        return None;
    }
    let first = bytes[at];
    if is_spacing(first) {
        return None;
    }
    if first == b'(' {
        return Some(Token::Open);
    }
    if first == b')' {
        return Some(Token::Close);
    }
    let part = unbroken(&bytes[at..]);
    if is_numeric(first) {
        return Some(Token::Number(part));
    }
    Some(Token::Word(part))
}

// The bytes of the word or number at a place, and none where there is neither.
pub fn written<'a>(bytes: &'a [u8], at: usize) -> &'a [u8]
    ensures { result.now ≡ front (drop at bytes.now) }
{
    match part_at(bytes, at) {
        Some(Token::Word(part)) => part,
        Some(Token::Number(part)) => part,
        _ => &bytes[0..0],
    }
}
