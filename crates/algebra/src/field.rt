// What code over any field may use of it.
ghost use Rattle.std.specs.Prelude.{◌≡◌, ℕ, List};
ghost use Rattle.algebra.specs.Fields.{Ops, Laws, Reads};

// A finite field of 250 to 256 elements, by the type of its elements. None of its functions refuses or changes anything.
pub trait Field: Copy {
    ghost ops: { Ops Self };

    // What sixteen bytes are sampled to: an element, and how many of the bytes were used.
    ghost sampled: { List ℕ → Self × ℕ };

    // The number by which records name the field. Whoever writes a field may pick one, so it is of no enum of ours.
    ghost named: { ℕ };

    fn code() -> u8
        ensures { result ≡ named };

    // How many elements there are.
    fn size() -> usize
        ensures { result ≡ ops.size };

    fn zero() -> Self
        ensures { result ≡ ops.zero };

    fn one() -> Self
        ensures { result ≡ ops.one };

    fn add(self, other: Self) -> Self
        ensures { result ≡ ops.plus self other };

    fn negate(self) -> Self
        ensures { result ≡ ops.negate self };

    fn multiply(self, other: Self) -> Self
        ensures { result ≡ ops.times self other };

    fn invert(self) -> Self
        ensures { result ≡ ops.inverse self };

    fn number(self) -> u16
        ensures { result ≡ ops.number self };

    // Element number n. Numbers from `size` on stand for no element of their own, so a reader tests for them first.
    fn element(n: u16) -> Self
        ensures { result ≡ ops.element n };

    // The element that the next bytes of a stream stand for, and how many of them it used.
    fn sample(bytes: &[u8; 16]) -> (Self, usize)
        ensures { result ≡ sampled bytes.now };

    ghost laws: { Laws ops };

    ghost reads: { Reads sampled };
}
