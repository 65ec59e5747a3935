// Writing into lent bytes, one piece after another.
ghost use Rattle.std.specs.Prelude.{◌≡◌, ◌+◌, ◌<◌, ◌≤◌, [], ◌∷◌, ◌++◌, map, length};
ghost use Rattle.records.specs.Openings.{four};
ghost use Rattle.records.specs.Writers.{Wrote};

use algebra::Field;

// Lent bytes, and the place up to which they are written. A writer may begin at any place, and tells by its own where it stands. What is
// left is no slice that shrinks, since of a `&mut [u8]` that is moved on a proof learns no byte that was written.
#[derive(Drop)]
pub struct Writer<'a> {
    pub out: &'a mut [u8],
    pub at: usize,
}

impl<'a> Writer<'a> {
    // Writes from the front of what is lent.
    pub fn new(out: &'a mut [u8]) -> Writer<'a>
        ensures lent { result.out.ghost_name ≡ out.entry.ghost_name }
        ensures same { result.out.now ≡ out.old }
        ensures place { result.at ≡ 0 }
    {
        Writer { out, at: 0 }
    }

    pub fn put_bytes(&mut self, bytes: &[u8])
        requires { self.old.at + length bytes.now ≤ length self.old.out.now }
        ensures { Wrote self.old bytes.now self.new }
    {
        let out = &mut *self.out;
        let end = self.at + bytes.len();
        out[self.at..end].copy_from_slice(bytes);
        self.at = end;
    }

    // What every record begins with: a length that counts all after itself, where so many bytes follow the version, and the version 1.
    pub(crate) fn put_opening(&mut self, rest: usize)
        requires few { rest < 65600 }
        requires room { self.old.at + 5 ≤ length self.old.out.now }
        ensures { Wrote self.old (four (1 + rest) ++ (1 ∷ [])) self.new }
    {
        self.put_bytes(&(1 + rest as u32).to_be_bytes());
        self.put_bytes(&[1]);
    }

    // Each element by its number.
    pub fn put_elements<F: Field>(&mut self, elements: &[F])
        requires { self.old.at + length elements.now ≤ length self.old.out.now }
        ensures { Wrote self.old (map F.Field.ops.number elements.now) self.new }
    {
        for element in elements {
            self.put_bytes(&[element.number() as u8]);
        }
    }
}
