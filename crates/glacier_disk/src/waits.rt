// What the receives of a connection waited behind. It exists in proofs alone, so that one more takes
// no memory.
ghost use Rattle.std.specs.Prelude.{◌≡◌, List, [], ◌∷◌, ◌++◌};
ghost use Rattle.std.specs.Borrow.{ftrue};
ghost use Rattle.glacier_disk.specs.Network.{Wait};

use std::marker::Model;

#[derive(Drop)]
pub struct Waits {
    pub ghost items: { List Wait },
}

impl Model for Waits {
    ghost also_owns = { λ _. ftrue };
}

impl Waits {
    pub(crate) fn new() -> Waits
        ensures { result.items ≡ [] }
    {
        Waits {}
    }

    pub(crate) fn and(&self, _taken: &usize, _sent: &usize) -> Waits
        ensures { result.items ≡ self.now.items
            ++ record { taken = _taken.now; sent = _sent.now } ∷ [] }
    {
        Waits {}
    }
}
