// The word that unknowns stand for, and the product of the matrix with a list.
ghost use Rattle.std.specs.Prelude.{◌≡◌, ℕ, ◌-◌, ◌*◌, ◌≤◌, true, length};
ghost use Rattle.lock.specs.Instances.{given, word};
ghost use Rattle.lock.specs.Products.{Added, BoundPart};
ghost use Rattle.lock.specs.Profiles.{ranged};

use crate::instance::Instance;
use algebra::Field;
use algebra::sums::{add_scaled, clear};

// Adds to each sum its row of the matrix times the factors. The matrix is given column after column, one for each factor.
pub fn add_columns<F: Field>(matrix: &[F], factors: &[F], sums: &mut [F])
    requires { length matrix.now ≡ length factors.now * length sums.old }
    ensures { Added F.Field.ops matrix.now factors.now sums.old sums.new }
{
    // By split_at, since chunks_exact cuts no chunks of zero elements, and there may be zero rows.
    let rows = sums.len();
    let mut rest = matrix;
    for factor in factors {
        let (column, more) = rest.split_at(rows);
        add_scaled(sums, *factor, column);
        rest = more;
    }
}

// y s - H' x_A, from x_A.
fn fill_bound<F: Field>(problem: &Instance<F>, s: F, free: &[F], out: &mut [F])
    requires free { length free.now ≡ problem.now.shape.k }
    requires room { length out.old ≡ problem.now.shape.m - problem.now.shape.k }
    ensures { BoundPart F.Field.ops (given problem.now) s free.now out.new }
{
    clear(out);
    add_columns(problem.matrix, free, out);
    // By index, since of what is written through a `zip` a proof knows nothing.
    for (r, row) in out.iter_mut().enumerate() {
        *row = problem.target[r].multiply(s).add(row.negate());
    }
}

// The word x at a level s: the first k unknowns, and then y s - H' x_A.
pub fn fill_word<F: Field>(problem: &Instance<F>, s: F, u: &[F], x: &mut [F])
    requires ranged { ranged problem.now.shape ≡ true }
    requires enough { problem.now.shape.k ≤ length u.now }
    requires room { length x.old ≡ problem.now.shape.m }
    ensures { x.new ≡ word F.Field.ops (given problem.now) s u.now }
{
    let k = problem.shape.k as usize;
    let free = &u[..k];
    let (front, back) = x.split_at_mut(k);
    front.copy_from_slice(free);
    fill_bound(problem, s, free, back);
}
