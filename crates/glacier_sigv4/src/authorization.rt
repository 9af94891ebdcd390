// The value of an Authorization field.
ghost use Rattle.std.specs.Prelude.{◌≡◌, option_map};
ghost use Rattle.std.specs.Char.{is_ascii_digit};
ghost use Rattle.std.specs.List.{list_all};
ghost use Rattle.glacier_sigv4.specs.Authorization.{is_lower_hex, behind_word as word_left, behind_spaces as spaces_left, labelled as labelled_part, is_day as day_test, is_signature as signature_test};

use crate::signed_names::are_names;
use glacier_base::cut;

/// The access key, and the scope that it is used for.
#[derive(Clone, Copy)]
pub(crate) struct Credential<'a> {
    pub(crate) key: &'a [u8],
    pub(crate) date: &'a [u8],
    pub(crate) region: &'a [u8],
    pub(crate) service: &'a [u8],
    pub(crate) last: &'a [u8],
}

/// What an Authorization field claims.
#[derive(Clone, Copy)]
pub(crate) struct Authorization<'a> {
    pub(crate) credential: Credential<'a>,
    /// The signed names, between semicolons.
    pub(crate) names: &'a [u8],
    pub(crate) signature: &'a [u8],
}

fn behind_word<'a>(text: &'a [u8], word: &[u8]) -> Option<&'a [u8]>
    ensures { option_map (λ rest. rest.now) result ≡ word_left word.now text.now }
{
    text.strip_prefix(word)
}

fn behind_spaces(mut text: &[u8]) -> &[u8]
    ensures { result.now ≡ spaces_left text.now }
{
    while let [b' ', rest @ ..] = text {
        text = rest;
    }
    text
}

fn labelled<'a>(text: &'a [u8], label: &[u8]) -> Option<(&'a [u8], &'a [u8])>
    ensures { option_map (λ parts. (parts.0.now, parts.1.now)) result
        ≡ labelled_part label.now text.now }
{
    cut(behind_word(behind_spaces(text), label)?, b',')
}

fn are_digits(text: &[u8]) -> bool
    ensures { result ≡ list_all is_ascii_digit text.now }
{
    text.iter().all(|b| b.is_ascii_digit())
}

fn are_lower_hex(text: &[u8]) -> bool
    ensures { result ≡ list_all is_lower_hex text.now }
{
    text.iter()
        .all(|b| b.is_ascii_digit() || (*b >= b'a' && *b <= b'f'))
}

fn is_day(text: &[u8]) -> bool
    ensures { result ≡ day_test text.now }
{
    text.len() == 8 && are_digits(text)
}

fn is_signature(text: &[u8]) -> bool
    ensures { result ≡ signature_test text.now }
{
    text.len() == 64 && are_lower_hex(text)
}

impl<'a> Credential<'a> {
    ghost use Rattle.std.specs.Prelude.{◌≡◌, option_map};
    ghost use Rattle.glacier_sigv4.specs.Authorization.{is_credential, credential_of as credential_text};
    ghost use Rattle.glacier_sigv4.specs.Claims.{credential_shown};

    fn keeps_rule(&self) -> bool
        ensures { result ≡ is_credential (credential_shown self.now) }
    {
        !self.key.is_empty()
            && is_day(self.date)
            && !self.region.is_empty()
            && !self.service.is_empty()
            && !self.last.is_empty()
            && cut(self.last, b'/').is_none()
    }

    fn of(text: &'a [u8]) -> Option<Credential<'a>>
        ensures { option_map credential_shown result ≡ credential_text text.now }
    {
        let (key, rest) = cut(text, b'/')?;
        let (date, rest) = cut(rest, b'/')?;
        let (region, rest) = cut(rest, b'/')?;
        let (service, last) = cut(rest, b'/')?;
        let credential = Credential {
            key,
            date,
            region,
            service,
            last,
        };
        if credential.keeps_rule() {
            Some(credential)
        } else {
            None
        }
    }
}

impl<'a> Authorization<'a> {
    ghost use Rattle.std.specs.Prelude.{◌≡◌, option_map};
    ghost use Rattle.glacier_sigv4.specs.Authorization.{authorization_of as authorization_text};
    ghost use Rattle.glacier_sigv4.specs.Claims.{authorization_shown};

    /// Reads the value of the field, or answers None where it isn't one of Signature Version 4.
    pub(crate) fn of(text: &'a [u8]) -> Option<Authorization<'a>>
        ensures { option_map authorization_shown result ≡ authorization_text text.now }
    {
        let rest = behind_word(text, b"AWS4-HMAC-SHA256 ")?;
        let (credential, rest) = labelled(rest, b"Credential=")?;
        let (names, rest) = labelled(rest, b"SignedHeaders=")?;
        let signature = behind_word(behind_spaces(rest), b"Signature=")?;
        let credential = Credential::of(credential)?;
        if are_names(names) && is_signature(signature) {
            Some(Authorization {
                credential,
                names,
                signature,
            })
        } else {
            None
        }
    }
}
