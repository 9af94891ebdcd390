// Laws of lists, which no code calls.
ghost use Rattle.std.specs.Prelude.{◌≡◌, ℕ};
ghost use Rattle.glacier_disk.specs.declared.area.Area.{Area};
ghost use Rattle.glacier_disk.specs.Image.{Image};
ghost use Rattle.glacier_journal.specs.Breaks.{Breaks};
ghost use Rattle.glacier_journal.specs.Listed.{Listed, Payloads};

/// An image that breaks lists nothing.
pub fn what_breaks_lists_nothing()
    ensures { (image : Image) (area other : Area) (at end : ℕ) (payloads : Payloads) →
        Breaks image area at → Listed image other payloads end → ⊥ }
{}

/// An image lists one list.
pub fn an_image_lists_one_list()
    ensures { (image : Image) (area other : Area) (payloads others : Payloads) (end far : ℕ) →
        Listed image area payloads end → Listed image other others far →
        (area ≡ other) × (payloads ≡ others) × (end ≡ far) }
{}

/// An image breaks at one place.
pub fn an_image_breaks_at_one_place()
    ensures { (image : Image) (area other : Area) (at place : ℕ) →
        Breaks image area at → Breaks image other place → (area ≡ other) × (at ≡ place) }
{}
