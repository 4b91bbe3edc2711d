ghost use Rattle.std.specs.Prelude.{◌≡◌, ◌<◌, ◌≤◌, ◌==◌, length, option_map, ◌++◌, ◌∷◌, slice_index, IfSome, IsUtf8, MatchOption};
ghost use Rattle.std.specs.List.{position_or_len};
ghost use Rattle.vp_text.specs.Texts.{part_and_rest, parts};

/// The part of a text before the first of an ASCII character that separates its parts, and what follows that
/// character; the whole text where there is none.
pub fn first_part(text: &str, separator: char) -> (&str, Option<&str>)
    requires { separator < 128 }
    ensures parts { parts separator text.now
        ≡ part_and_rest separator result.0.now (option_map (λ r. r.now) result.1) }
    ensures text { IfSome result.1 (λ r. IsUtf8 r.now) }
    ensures shorter { IfSome result.1 (λ r. length r.now < length text.now) }
{
    match text.split_once(separator) {
        Some((part, rest)) => (part, Some(rest)),
        None => (text, None),
    }
}

/// The place of the first of a byte among others; how many there are, where there is none.
fn first_place(bytes: &[u8], byte: u8) -> usize
    ensures place { result ≡ position_or_len (λ b. b == byte) bytes.now }
    ensures bound { result ≤ length bytes.now }
    ensures found { result < length bytes.now → slice_index bytes.now result ≡ byte }
{
    for place in 0..bytes.len() {
        if bytes[place] == byte {
            return place;
        }
    }
    bytes.len()
}

/// The part of some bytes before the first of a byte that separates their parts, and what follows that byte; all of them
/// where there is none.
pub fn first_piece(bytes: &[u8], separator: u8) -> (&[u8], Option<&[u8]>)
    ensures parts { parts separator bytes.now
        ≡ part_and_rest separator result.0.now (option_map (λ r. r.now) result.1) }
    ensures whole { MatchOption result.1 (bytes.now ≡ result.0.now)
        (λ r. bytes.now ≡ result.0.now ++ separator ∷ r.now) }
{
    let end = first_place(bytes, separator);
    if end < bytes.len() {
        (&bytes[..end], Some(&bytes[end + 1..]))
    } else {
        (bytes, None)
    }
}
