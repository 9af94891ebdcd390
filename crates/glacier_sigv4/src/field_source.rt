// Fields by their places, of a head or of a list.
use glacier_base::List;
use glacier_http::{Field, Head};

/// Fields by their places.
pub(crate) trait FieldSource {
    ghost use Rattle.std.specs.Prelude.{◌≡◌, ◌<◌, ℕ, List as Items, length, slice_get, Some};

    // The names and values.
    ghost pairs: { Self → Items (Items ℕ × Items ℕ) };

    /// How many there are.
    fn len(&self) -> usize
        ensures { result ≡ length (pairs self.now) };

    /// The name and the value of the field at a place.
    fn at(&self, index: usize) -> (&[u8], &[u8])
        requires { index < length (pairs self.now) }
        ensures { slice_get (pairs self.now) index ≡ Some (result.0.now, result.1.now) };
}

impl<'h> FieldSource for Head<'h> {
    ghost pairs = { λ head. head.fields };

    fn len(&self) -> usize {
        self.count() as usize
    }

    fn at(&self, index: usize) -> (&[u8], &[u8]) {
        // The count bounds the place.
        let _count = self.count();
        self.field(index as u32)
    }
}

impl FieldSource for List<Field> {
    ghost use Rattle.glacier_sigv4.specs.CanonicalFields.{pairs_of_fields};

    ghost pairs = { λ fields. pairs_of_fields fields };

    fn len(&self) -> usize {
        self.as_slice().len()
    }

    fn at(&self, index: usize) -> (&[u8], &[u8]) {
        let field = &self.as_slice()[index];
        (field.name.bytes(), field.value.bytes())
    }
}
