// The key file.
ghost use Rattle.std.specs.Prelude.{◌≡◌, ◌<◌, ◌≤◌, ◌∷◌, ◌++◌, [], length, IfOk, IfErr, OnOk, option_map};
ghost use Rattle.std.specs.Char.{is_ascii_alphanumeric};
ghost use Rattle.std.specs.List.{list_all, list_any};
ghost use Rattle.glacier_sigv4.specs.Rings.{is_visible, is_access as access_test, is_secret as secret_test, clashes as clashes_with, total_of, AreEntries};
ghost use Rattle.glacier_sigv4.specs.KeyFile.{quota_in, parts_of, entry_of, entry_from as entry_of_parts, fits as fits_test, next_entry, lines_of, entries_from, entries_of, Blames, parts_shown};

use crate::key_fault::KeyFault;
use crate::ring::{Entry, KeyRing, Keys, LONGEST_KEY, MOST_ACCOUNTS, MOST_BLOCKS, total};
use glacier_base::{Account, Memory, Text, cut};
use glacier_http::number;
use std::alloc::Global;

fn are_letters_or_digits(text: &[u8]) -> bool
    ensures { result ≡ list_all is_ascii_alphanumeric text.now }
{
    text.iter().all(|b| b.is_ascii_alphanumeric())
}

fn are_visible(text: &[u8]) -> bool
    ensures { result ≡ list_all is_visible text.now }
{
    text.iter().all(|b| *b >= 0x21 && *b <= 0x7e)
}

fn is_access(text: &[u8]) -> bool
    ensures { result ≡ access_test text.now }
{
    !text.is_empty() && text.len() <= LONGEST_KEY && are_letters_or_digits(text)
}

fn is_secret(text: &[u8]) -> bool
    ensures { result ≡ secret_test text.now }
{
    !text.is_empty() && text.len() <= LONGEST_KEY && are_visible(text)
}

fn quota(text: &[u8]) -> Option<u64>
    ensures { result ≡ quota_in text.now }
{
    let quota = number(7, text)?;
    if quota >= 1 && quota <= MOST_BLOCKS {
        Some(quota)
    } else {
        None
    }
}

/// The entry of four parts, where each keeps its rule.
fn entry_from(
    alloc: Global,
    account: &[u8],
    access: &[u8],
    secret: &[u8],
    quota: u64,
) -> Result<Option<Entry>, Memory>
    ensures { IfOk result (λ entry.
        entry ≡ entry_of_parts account.now access.now secret.now quota) }
{
    let Some(account) = Account::parse(account) else {
        return Ok(None);
    };
    if !is_access(access) || !is_secret(secret) {
        return Ok(None);
    }
    let access = Text::of(alloc, access)?;
    let secret = Text::of(alloc, secret)?;
    let keys = Keys {
        account,
        access,
        secret,
    };
    Ok(Some(Entry { keys, quota }))
}

/// The four parts of a line.
fn parts(text: &[u8]) -> Option<(&[u8], &[u8], &[u8], u64)>
    ensures { option_map parts_shown result ≡ parts_of text.now }
{
    let (account, rest) = cut(text, b' ')?;
    let (access, rest) = cut(rest, b' ')?;
    let (secret, rest) = cut(rest, b' ')?;
    let quota = quota(rest)?;
    Some((account, access, secret, quota))
}

/// The entry of a line, where it is one: `ACCOUNT ACCESSKEY SECRET QUOTA`.
fn read_entry(alloc: Global, text: &[u8]) -> Result<Option<Entry>, Memory>
    ensures { IfOk result (λ entry. entry ≡ entry_of text.now) }
{
    let Some((account, access, secret, quota)) = parts(text) else {
        return Ok(None);
    };
    entry_from(alloc, account, access, secret, quota)
}

/// Whether an account or an access key of the entry is there already.
fn clashes(entries: &[Entry], entry: &Entry) -> bool
    ensures { result ≡ list_any (clashes_with entry.now) entries.now }
{
    let account = entry.keys.account.bytes();
    let access = entry.keys.access.bytes();
    entries.iter().any(|other| other.keys.account.bytes() == account
        || other.keys.access.bytes() == access)
}

/// Whether the entry may stand behind these.
fn fits(entries: &[Entry], entry: &Entry) -> bool
    requires { total_of entries.now ≤ MOST_BLOCKS }
    ensures { result ≡ fits_test entries.now entry.now }
{
    if entries.len() >= MOST_ACCOUNTS {
        return false;
    }
    if clashes(entries, entry) {
        return false;
    }
    entry.quota <= MOST_BLOCKS - total(entries)
}

/// The entry of a line behind these, unless the line is bad.
fn read_next(alloc: Global, entries: &[Entry], text: &[u8]) -> Result<Option<Entry>, Memory>
    requires { total_of entries.now ≤ MOST_BLOCKS }
    ensures { IfOk result (λ entry. entry ≡ next_entry entries.now text.now) }
{
    let Some(entry) = read_entry(alloc, text)? else {
        return Ok(None);
    };
    if fits(entries, &entry) {
        Ok(Some(entry))
    } else {
        Ok(None)
    }
}

/// The first line, and what follows it.
fn cut_line(text: &[u8]) -> (&[u8], &[u8])
    requires { 0 < length text.now }
    ensures lines { lines_of text.now ≡ result.0.now ∷ lines_of result.1.now }
    ensures shorter { length result.1.now < length text.now }
{
    match cut(text, b'\n') {
        Some(parts) => parts,
        None => (text, &[]),
    }
}

/// The entries of all lines.
fn read_entries(alloc: Global, text: &[u8]) -> Result<Vec<Entry>, KeyFault>
    ensures ok { IfOk result (λ entries.
        entries_from (lines_of text.now) [] ≡ Ok entries.items) }
    ensures rule { IfOk result (λ entries. AreEntries entries.items) }
    ensures err { IfErr result (λ fault. Blames fault (entries_from (lines_of text.now) [])) }
{
    let mut entries: Vec<Entry> = Vec::new(alloc);
    let mut rest = text;
    'lines: while !rest.is_empty() {
        let (line, left) = cut_line(rest);
        let Some(entry) = read_next(alloc, &entries, line)? else {
            let before = entries.len() as u32;
            return Err(KeyFault::BadLine { line: before + 1 });
        };
        push(&mut entries, entry)?;
        rest = left;
    }
    Ok(entries)
}

fn push(entries: &mut Vec<Entry>, entry: Entry) -> Result<(), Memory>
    ensures { OnOk result (entries.new.items ≡ entries.old.items ++ entry ∷ []) }
{
    entries.push(entry)?;
    Ok(())
}

impl KeyRing {
    /// Reads a key file: a line `ACCOUNT ACCESSKEY SECRET QUOTA` for each account, where the quota
    /// is in blocks of 1 MiB.
    pub fn read(alloc: Global, text: &[u8]) -> Result<KeyRing, KeyFault>
        ensures ok { IfOk result (λ ring. entries_of text.now ≡ Ok ring) }

        // BadLine names the first bad line.
        ensures err { IfErr result (λ fault. Blames fault (entries_of text.now)) }
    {
        let entries = read_entries(alloc, text)?;
        if entries.is_empty() {
            return Err(KeyFault::BadLine { line: 1 });
        }
        Ok(KeyRing::of(entries))
    }
}
