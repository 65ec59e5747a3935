// Working memory that is made once and lent, so that what uses it cannot run out.
ghost use Rattle.std.specs.Prelude.{◌≡◌, vec_len};

// Room for the matrix, x, y and the unknowns of the largest key.
#[derive(Drop)]
pub struct Workspace<F> {
    pub(crate) matrix: Vec<F>,
    pub(crate) word: Vec<F>,
    pub(crate) target: Vec<F>,
    pub(crate) unknowns: Vec<F>,
    ghost cells: { vec_len matrix ≡ 15625 },
    ghost places: { vec_len word ≡ 250 },
    ghost rows: { vec_len target ≡ 249 },
    ghost many: { vec_len unknowns ≡ 256 },
}
