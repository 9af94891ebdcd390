// The options of a server, each of which is said at most once, in any order.
ghost use Rattle.std.specs.Prelude.{◌≡◌, ◌&&◌, ◌≤◌, IfSome, map, string_bytes, option_map};
ghost use Rattle.std.specs.List.{list_all};
ghost use Rattle.glacier_cli.specs.Options.{is_address_byte, is_address, number_within, nothing_said, options_of, said_by, with_address, with_region, with_delay, with_connections, with_new, with_value};

use glacier_http::number;

/// How many seconds a retrieval job takes at most: 365 days.
pub const MOST_DELAY: u32 = 31_536_000;

/// How many connections are served at most.
pub const MOST_CONNECTIONS: u32 = 1_000_000;

/// How many digits a number among the words has at most.
const MOST_DIGITS: usize = 8;

/// What the options say so far.
#[derive(Clone, Copy)]
pub struct Options<'a> {
    /// The address, 1 to 255 bytes of printable ASCII without a space.
    pub address: Option<&'a str>,
    /// What is to be the region: its rule isn't tested yet.
    pub region: Option<&'a str>,
    /// How many seconds a retrieval job of any tier takes, at most `MOST_DELAY`.
    pub delay: Option<u32>,
    /// How many connections are served at most, 1 to `MOST_CONNECTIONS`.
    pub connections: Option<u32>,
    /// Whether the store is made in its folder.
    pub is_new: bool,
}

/// Whether each byte is printable ASCII, and no space.
fn are_address_bytes(text: &[u8]) -> bool
    ensures { result ≡ list_all is_address_byte text.now }
{
    text.iter().all(|byte| byte.is_ascii_graphic())
}

/// Whether the text is an address: 1 to 255 bytes of printable ASCII, without a space.
fn is_address(text: &str) -> bool
    ensures { result ≡ is_address text.now }
{
    let bytes = text.as_bytes();
    if bytes.is_empty() || bytes.len() > 255 {
        return false;
    }
    are_address_bytes(bytes)
}

/// The number between these bounds that the text writes in 1 to 8 decimal digits.
fn number_within(least: u32, most: u32, text: &str) -> Option<u32>
    ensures { result ≡ number_within least most text.now }
{
    let value = number(MOST_DIGITS, text.as_bytes())?;
    if value < u64::from(least) || value > u64::from(most) {
        return None;
    }
    Some(value as u32)
}

impl<'a> Options<'a> {
    /// Nothing is said yet.
    fn nothing() -> Options<'a>
        ensures { said_by result ≡ nothing_said }
    {
        Options {
            address: None,
            region: None,
            delay: None,
            connections: None,
            is_new: false,
        }
    }

    /// With the address, or None where there is one already or this is none.
    fn with_address(&self, value: &'a str) -> Option<Options<'a>>
        ensures { option_map said_by result ≡ with_address value.now (said_by self.now) }
    {
        if self.address.is_some() || !is_address(value) {
            return None;
        }
        Some(Options {
            address: Some(value),
            ..*self
        })
    }

    /// With a text for the region, or None where there is one already.
    fn with_region(&self, value: &'a str) -> Option<Options<'a>>
        ensures { option_map said_by result ≡ with_region value.now (said_by self.now) }
    {
        if self.region.is_some() {
            return None;
        }
        Some(Options {
            region: Some(value),
            ..*self
        })
    }

    /// With the delay, or None where there is one already or this is none.
    fn with_delay(&self, value: &str) -> Option<Options<'a>>
        ensures { option_map said_by result ≡ with_delay value.now (said_by self.now) }
    {
        if self.delay.is_some() {
            return None;
        }
        let delay = number_within(0, MOST_DELAY, value)?;
        Some(Options {
            delay: Some(delay),
            ..*self
        })
    }

    /// With the number of connections, or None where there is one already or this is none.
    fn with_connections(&self, value: &str) -> Option<Options<'a>>
        ensures { option_map said_by result ≡ with_connections value.now (said_by self.now) }
    {
        if self.connections.is_some() {
            return None;
        }
        let connections = number_within(1, MOST_CONNECTIONS, value)?;
        Some(Options {
            connections: Some(connections),
            ..*self
        })
    }

    /// With `--new`, or None where it is said already.
    fn with_new(&self) -> Option<Options<'a>>
        ensures { option_map said_by result ≡ with_new (said_by self.now) }
    {
        if self.is_new {
            return None;
        }
        Some(Options {
            is_new: true,
            ..*self
        })
    }

    /// With the value of an option, or None where there is no such option, or it is said already, or
    /// the value isn't in its rule.
    fn with_value(&self, name: &str, value: &'a str) -> Option<Options<'a>>
        ensures { option_map said_by result ≡ with_value name.now value.now (said_by self.now) }
    {
        if name == "--listen" {
            self.with_address(value)
        } else if name == "--region" {
            self.with_region(value)
        } else if name == "--delay" {
            self.with_delay(value)
        } else if name == "--connections" {
            self.with_connections(value)
        } else {
            None
        }
    }

    /// With what these words say, or None where they say what is said already, or are no options.
    fn with_words(&self, words: &'a [String]) -> Option<Options<'a>>
        ensures { option_map said_by result
            ≡ options_of (map string_bytes words.now) (said_by self.now) }
    {
        match words {
            [] => Some(*self),
            [name, rest @ ..] if name.as_str() == "--new" => self.with_new()?.with_words(rest),
            [name, value, rest @ ..] => self.with_value(name, value)?.with_words(rest),
            [_] => None,
        }
    }

    /// What the words say: `--new`, and options with their values, each at most once, in any order.
    /// None where they aren't such options.
    pub(crate) fn of(words: &'a [String]) -> Option<Options<'a>>
        ensures { option_map said_by result ≡ options_of (map string_bytes words.now) nothing_said }
    {
        Options::nothing().with_words(words)
    }
}
