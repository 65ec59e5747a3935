// Elements sampled from a source one after the other. The source is asked for a block only when an element needs bytes of it.
ghost use Rattle.std.specs.Prelude.{◌≡◌, ℕ, ◌≤◌, length, take, drop};
ghost use Rattle.expander.specs.Sampling.{Sampling, DrawsOne, Draws};
ghost use Rattle.expander.specs.Streams.{drawn, seed_stream, tagged_stream};
ghost use Rattle.std.specs.List.{flat_map};

use crate::expander::Expander;
use crate::sampler::Sampler;
use crate::seeds::SeedStream;
use crate::stream::Stream;
use algebra::Field;

const BLOCK: usize = 16;

// The sixteen bytes from place `at` on.
fn sixteen(pair: &[u8; 32], at: usize) -> &[u8; 16]
    requires { at ≤ 16 }
    ensures { result.now ≡ take 16 (drop at pair.now) }
{
    pair[at..].first_chunk().unwrap()
}

impl<S: Stream> Sampler<S> {
    // A sampler of what the source gives from here on.
    pub fn new(source: S) -> Sampler<S>
        ensures { (f : ℕ → ℕ) (k : ℕ) → S.Stream.gives source f k → Sampling S.Stream.gives result f k }
    {
        Sampler {
            source,
            pair: [0; 32],
            at: BLOCK,
        }
    }

    // The next element.
    pub fn next<F: Field>(&mut self) -> F
        ensures { DrawsOne S.Stream.gives F.Field.sampled self.old result self.new }
    {
        let (x, used) = F::sample(sixteen(&self.pair, self.at));
        if self.at + used <= BLOCK {
            self.at += used;
            return x;
        }
        let block = self.source.next_block();
        self.pair[BLOCK..2 * BLOCK].copy_from_slice(&block);
        let (y, taken) = F::sample(sixteen(&self.pair, self.at));
        self.pair[0..BLOCK].copy_from_slice(&block);
        self.at = self.at + taken - BLOCK;
        y
    }

    // Fills `out` with the next elements.
    pub fn fill<F: Field>(&mut self, out: &mut [F])
        ensures { Draws S.Stream.gives F.Field.sampled self.old (length out.old) out.new self.new }
    {
        // By index, so that an element in another's place is a slip that the check can be asked about.
        for i in 0..out.len() {
            out[i] = self.next();
        }
    }
}

// Fills `out` with the first elements of what the source gives from here on.
fn sample_from<F: Field, S: Stream>(source: S, out: &mut [F])
    ensures { (f : ℕ → ℕ) (k : ℕ) → S.Stream.gives source f k → out.new ≡ drawn F.Field.sampled f k (length out.old) }
{
    Sampler::new(source).fill(out);
}

// Fills `out` with the first elements of the stream of a seed.
pub fn sample_list<F: Field, E: Expander>(salt: &[u8; 16], seed: &[u8; 16], out: &mut [F])
    ensures { out.new ≡ drawn F.Field.sampled (seed_stream E.Expander.block salt.now seed.now) 0 (length out.old) }
{
    sample_from(SeedStream::<E>::new(salt, seed), out);
}

// Fills `out` with the first elements of S(tag, parts).
pub fn sample_tagged<F: Field>(tag: u8, parts: &[&[u8]], out: &mut [F])
    ensures { out.new ≡ drawn F.Field.sampled (tagged_stream tag (flat_map (λ x. x.now) parts.now)) 0 (length out.old) }
{
    sample_from(hashes::stream(tag, parts), out);
}
