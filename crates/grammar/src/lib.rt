// Texts by the grammar that they are written in, and reading by one.
#![tactic(auto)]

ghost use Rattle.std.specs.Prelude.{◌≡◌, ◌≢◌, ◌<◌, ◌≤◌, true, false, length, get_or, drop, unwrap_or, IfSome};
ghost use Rattle.grammar.specs.Grammars.{Reads, lit};
ghost use Rattle.grammar.specs.Decimals.{Natural};

// Reads `word` at `at`, which may be any number and so is no cursor: where it ends, or the place of the first byte that differs.
pub fn literal(bytes: &[u8], at: usize, word: &[u8]) -> Result<usize, usize>
    ensures { Reads (lit word.now) at (drop at bytes.now) result }
{
    for (i, b) in word.iter().enumerate() {
        if !stands(bytes, at + i, *b) {
            return Err(at + i);
        }
    }
    Ok(at + word.len())
}

// Whether a byte stands at a place.
fn stands(bytes: &[u8], at: usize, byte: u8) -> bool
    ensures here { result ≡ true → (at < length bytes.now) × (get_or bytes.now at 0 ≡ byte) }
    ensures other { result ≡ false → at < length bytes.now → get_or bytes.now at 0 ≢ byte }
{
    bytes.get(at).is_some_and(|b| *b == byte)
}

// Reads the longest beginning at `at` that some decimal number from 1 to `max` has: its end, and the number, if it is one.
pub fn natural(bytes: &[u8], at: usize, max: u32) -> (usize, Option<usize>)
    ensures read { Natural max at bytes.now result.0 (unwrap_or result.1 0) }
    ensures some { IfSome result.1 (λ n. 1 ≤ n) }
{
    let rest = bytes.get(at..).unwrap_or(&[]);
    let mut n = None;
    for (i, b) in rest.iter().enumerate() {
        if !b.is_ascii_digit() {
            return (at + i, n);
        }
        let next = n.unwrap_or(0) * 10 + (b - b'0') as usize;
        if next == 0 || next > max as usize {
            return (at + i, n);
        }
        n = Some(next);
    }
    (at + rest.len(), n)
}
