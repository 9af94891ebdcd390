// Why nothing is read.
ghost use Rattle.std.specs.Prelude.{◌≡◌};
ghost use Rattle.glacier_records.specs.declared.unread.Unread.TheVariants.{Memory};

/// Why nothing is read: no value of the kind stands there, or there is no memory for it.
#[derive(Clone, Copy)]
pub(crate) enum Unread {
    NoValue,
    Memory,
}

impl From<glacier_base::Memory> for Unread {
    ghost from_gives = { λ _ e. e ≡ Memory };

    fn from(_: glacier_base::Memory) -> Self {
        Unread::Memory
    }
}
