// Elements of a field as bytes, each its number.
ghost use Rattle.std.specs.Prelude.{◌≡◌, map, length};
ghost use Rattle.records.specs.Formats.{below};

use algebra::Field;

// Whether each byte is the number of an element.
pub fn all_elements<F: Field>(bytes: &[u8]) -> bool
    ensures { result ≡ below F.Field.ops.size bytes.now }
{
    bytes.iter().all(|byte| usize::from(*byte) < F::size())
}

// The element of each byte. A byte is read by its index, since of what is written through a `zip` a proof knows nothing.
pub fn read_elements<F: Field>(bytes: &[u8], out: &mut [F])
    requires { length out.old ≡ length bytes.now }
    ensures { out.new ≡ map F.Field.ops.element bytes.now }
{
    for (i, element) in out.iter_mut().enumerate() {
        *element = F::element(u16::from(bytes[i]));
    }
}
