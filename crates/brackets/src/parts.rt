// Going through a text part by part.
ghost use Rattle.std.specs.Prelude.{◌≡◌, ◌+◌, ◌≤◌, ◌==◌, length, drop, position};
ghost use Rattle.brackets.specs.Lines.{past_part, parts_on, past_line};

use texts::written;

// What follows a part of so many bytes and the byte that ends it.
pub(crate) fn behind<'a>(text: &'a [u8], len: usize) -> &'a [u8]
    requires { len ≤ length text.now }
    ensures { result.now ≡ drop (len + 1) text.now }
{
    text.get(len + 1..).unwrap_or(&[])
}

// What follows the first part and the byte that ends it.
pub(crate) fn next_part<'a>(text: &'a [u8]) -> &'a [u8]
    ensures { result.now ≡ past_part text.now }
{
    behind(text, written(text, 0).len())
}

// What follows the first n parts.
pub(crate) fn skip_parts<'a>(text: &'a [u8], n: usize) -> &'a [u8]
    ensures { result.now ≡ parts_on n text.now }
{
    let mut rest = text;
    for k in 0..n {
        rest = next_part(rest);
    }
    rest
}

// Where the first line ends.
fn line_end(text: &[u8]) -> Option<usize>
    ensures { result ≡ position (λ b. b == 10) text.now }
{
    text.iter().position(|b| *b == b'\n')
}

// What follows the first line.
pub(crate) fn next_line<'a>(text: &'a [u8]) -> &'a [u8]
    ensures { result.now ≡ past_line text.now }
{
    let end = line_end(text).unwrap_or(text.len());
    text.get(end + 1..).unwrap_or(&[])
}
