// What a lock is asked about.
ghost use Rattle.std.specs.Prelude.{◌≡◌, ◌-◌, ◌*◌, length};

use crate::profile::Shape;

// The matrix H' of m - k rows and k columns, column after column, and the target y of m - k elements. The matrix
// lies in lent memory in the order in which it is sampled.
#[derive(Drop)]
pub struct Instance<'a, F> {
    pub shape: Shape,
    pub matrix: &'a [F],
    pub target: &'a [F],
    pub ghost cells: { length matrix.now ≡ shape.k * (shape.m - shape.k) },
    pub ghost rows: { length target.now ≡ shape.m - shape.k },
}
