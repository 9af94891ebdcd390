// Why a head or a body can't be read.
use glacier_base::Memory;
use glacier_vault::Refusal;

/// Why nothing was read.
#[derive(Drop)]
pub enum Unread {
    /// The head or the body is refused.
    Refused(Refusal),
    /// There is no memory for it. Any reading that takes memory may want it.
    Memory,
}

impl From<Memory> for Unread {
    ghost use Rattle.std.specs.Prelude.{◌≡◌};
    ghost use Rattle.glacier_requests.specs.declared.unread.Unread.TheVariants as unread;

    ghost from_gives = { λ _ given. given ≡ unread.Memory };

    fn from(_: Memory) -> Self {
        Unread::Memory
    }
}
