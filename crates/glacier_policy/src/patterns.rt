// Patterns in which `*` stands for any run of bytes and `?` for one byte.
ghost use Rattle.std.specs.Prelude.{◌≡◌, ◌==◌, ◌+◌, ◌<◌, ◌≤◌, ◌↔◌, ℕ, List, Bool, true, false, ◌&&◌, ◌||◌, IsTrue, length, drop, slice_index, map};
ghost use Rattle.std.proofs.Common.{get_or};
ghost use Rattle.glacier_policy.specs.Patterns.{Fits, fits, fits_sign, sign_of, folded, IsRowOf};

/// The most bytes of a text that a pattern is held against: of a vault's name among resources.
pub(crate) const LONGEST_TEXT: usize = 324;

/// The places of such a text, its end among them.
const PLACES: usize = LONGEST_TEXT + 1;

// A row tells for each place of a text whether what stands from there on fits. These put the next
// sign, one that stands for any run, any byte or this byte, in front.
fn take_run(row: &mut [bool; PLACES], size: usize)
    requires { size ≤ LONGEST_TEXT }
    ensures last { get_or row.new size false ≡ get_or row.old size false }
    ensures each { (k : ℕ) → k < size →
        get_or row.new k false ≡ get_or row.old k false || get_or row.new (k + 1) false }
{
    for place in (0..size).rev() {
        row[place] = row[place] || row[place + 1];
    }
}

fn take_byte(row: &mut [bool; PLACES], size: usize)
    requires { size ≤ LONGEST_TEXT }
    ensures last { get_or row.new size false ≡ false }
    ensures each { (k : ℕ) → k < size → get_or row.new k false ≡ get_or row.old (k + 1) false }
{
    for place in 0..size {
        row[place] = row[place + 1];
    }
    row[size] = false;
}

fn take_this_byte(row: &mut [bool; PLACES], text: &[u8], byte: u8)
    requires { length text.now ≤ LONGEST_TEXT }
    ensures last { get_or row.new (length text.now) false ≡ false }
    ensures each { (k : ℕ) → k < length text.now →
        get_or row.new k false ≡ (slice_index text.now k == byte) && get_or row.old (k + 1) false }
{
    for (place, other) in text.iter().enumerate() {
        row[place] = *other == byte && row[place + 1];
    }
    row[text.len()] = false;
}

fn take_sign(row: &mut [bool; PLACES], text: &[u8], byte: u8)
    requires { length text.now ≤ LONGEST_TEXT }
    ensures { (test : List ℕ → Bool) → IsRowOf test text.now row.old →
        IsRowOf (fits_sign (sign_of byte) test) text.now row.new }
{
    if byte == b'*' {
        take_run(row, text.len());
    } else if byte == b'?' {
        take_byte(row, text.len());
    } else {
        take_this_byte(row, text, byte);
    }
}

fn folded(any_case: bool, byte: u8) -> u8
    ensures { result ≡ folded any_case byte }
{
    if any_case {
        byte.to_ascii_lowercase()
    } else {
        byte
    }
}

/// The row of an empty pattern.
fn end_row(size: usize) -> [bool; PLACES]
    requires { size ≤ LONGEST_TEXT }
    ensures last { get_or result size false ≡ true }
    ensures each { (k : ℕ) → k < size → get_or result k false ≡ false }
{
    let mut row = [false; PLACES];
    row[size] = true;
    row
}

/// Whether a pattern, or where case doesn't count its lower case, fits a text.
pub(crate) fn fits(pattern: &[u8], text: &[u8], any_case: bool) -> bool
    requires { length text.now ≤ LONGEST_TEXT }
    ensures value { result ≡ fits (map (folded any_case) pattern.now) text.now }
    ensures meaning { IsTrue result ↔ Fits (map (folded any_case) pattern.now) text.now }
{
    let mut row = end_row(text.len());
    for place in (0..pattern.len()).rev() {
        take_sign(&mut row, text, folded(any_case, pattern[place]));
    }
    row[0]
}
