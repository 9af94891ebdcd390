// Bytes that are cut at a separator.
ghost use Rattle.std.specs.Prelude.{◌≡◌, ◌<◌, ◌∷◌, length, option_map, IfSome};
ghost use Rattle.std.specs.List.{slice_split};
ghost use Rattle.glacier_base.specs.Cuts.{cut_at, is_byte, pieces_of};

/// What stands before the first separator, and what stands behind it, where there is one.
pub fn cut(bytes: &[u8], separator: u8) -> Option<(&[u8], &[u8])>
    ensures parts { option_map (λ parts. (parts.0.now, parts.1.now)) result
        ≡ cut_at separator bytes.now }
    ensures shorter { IfSome result (λ parts. length parts.1.now < length bytes.now) }
{
    for (i, b) in bytes.iter().enumerate() {
        if *b == separator {
            return Some((&bytes[..i], &bytes[i + 1..]));
        }
    }
    None
}

/// The first of the pieces between the separators, and what stands behind the separator that ends
/// it, where there is one.
pub fn next_piece(bytes: &[u8], separator: u8) -> (&[u8], Option<&[u8]>)
    ensures pieces { slice_split (is_byte separator) bytes.now
        ≡ result.0.now ∷ pieces_of separator (option_map (λ rest. rest.now) result.1) }
    ensures shorter { IfSome result.1 (λ rest. length rest.now < length bytes.now) }
{
    match cut(bytes, separator) {
        Some((piece, rest)) => (piece, Some(rest)),
        None => (bytes, None),
    }
}
