// The blocks of leaves, from the fields that follow their letters.
ghost use Rattle.std.specs.Prelude.{◌≡◌, ℕ, List, Result, Err, pos, length, replicate, IfOk, MatchResult};
ghost use Rattle.std.specs.List.{AllByRecursion};
ghost use Rattle.std.specs.Result.{result_unwrap_or};
ghost use Rattle.film.specs.declared.fault.Fault.{Fault as Refusal};
ghost use Rattle.film.specs.Fields.{fields};
ghost use Rattle.film.specs.Faults.{or_bad_field};
ghost use Rattle.film.specs.Leaves.{levels_after, samples_after, samples_of, spread_all, gathered, read_pair, behind_pair, pair_reads, IsWithin, answered, given};

use crate::cutting::Fields;
use crate::fault::Fault;
use crate::number::{read_level, read_position, read_sample};

// What the block of a leaf holds, a value in each place: levels, or samples. No other crate adds a third, so the trait
// is not exported.
pub trait Value: Copy {
    // The block of so many places that is written behind a leaf's letter.
    ghost block_after: { ℕ → List ℕ → Result (List Self) Refusal };

    // Judges what follows the letter, for a block of `count` places.
    fn check(tail: &[u8], count: usize) -> Result<(), Fault>
        ensures { result ≡ answered (block_after count tail.now) };

    // Writes the block; after a refusal it may hold anything.
    fn place(tail: &[u8], block: &mut [Self]) -> Result<(), Fault>
        ensures { given result block.new ≡ block_after (length block.old) tail.now };
}

// The block of a leaf, as many values as it holds. A refusal leaves the block as it was.
pub fn read_block<T: Value>(tail: &[u8], block: &mut [T]) -> Result<(), Fault>
    ensures answer { result ≡ answered (T.block_after (length block.old) tail.now) }
    ensures block { block.new ≡ result_unwrap_or (T.block_after (length block.old) tail.now) block.old }
{
    T::check(tail, block.len())?;
    T::place(tail, block)
}

// The same in one pass, for scratch blocks: after a refusal the block may hold anything.
pub fn fill_block<T: Value>(tail: &[u8], block: &mut [T]) -> Result<(), Fault>
    ensures { given result block.new ≡ T.block_after (length block.old) tail.now }
{
    T::place(tail, block)
}

// The levels of a transform leaf, each behind its position.
impl Value for i32 {
    ghost block_after = { levels_after };

    #[tactic(auto, using(crate::proofs::Pairs::one_checked, crate::proofs::Pairs::bad_checked, crate::proofs::Pairs::levels_answered))]
    fn check(pairs: &[u8], count: usize) -> Result<(), Fault> {
        for pair in Pairs::new(pairs, count)? {
            pair?;
        }
        Ok(())
    }

    #[tactic(auto, using(crate::proofs::Pairs::one_placed, crate::proofs::Pairs::bad_placed))]
    fn place(pairs: &[u8], levels: &mut [i32]) -> Result<(), Fault> {
        let pairs = Pairs::new(pairs, levels.len())?;
        levels.fill(0);
        for pair in pairs {
            let (position, level) = pair?;
            levels[position] = level;
        }
        Ok(())
    }
}

// The samples of a raw leaf, one for each place.
impl Value for u8 {
    ghost block_after = { samples_after };

    #[tactic(auto, using(crate::proofs::Samples::one_checked, crate::proofs::Samples::bad_checked, crate::proofs::Samples::all_checked))]
    fn check(samples: &[u8], count: usize) -> Result<(), Fault> {
        for sample in sample_fields(samples, count)? {
            read_sample(sample)?;
        }
        Ok(())
    }

    #[tactic(auto, using(crate::proofs::Samples::one_placed, crate::proofs::Samples::bad_placed, crate::proofs::Samples::all_placed))]
    fn place(samples: &[u8], block: &mut [u8]) -> Result<(), Fault> {
        for (i, sample) in sample_fields(samples, block.len())?.enumerate() {
            block[i] = read_sample(sample)?;
        }
        Ok(())
    }
}

// The fields of a raw leaf, if there is one for each of `count` places.
#[tactic(auto, using(crate::proofs::Samples::many_after, crate::proofs::Samples::all_after))]
fn sample_fields<'a>(samples: &'a [u8], count: usize) -> Result<Fields<'a>, Fault>
    ensures { MatchResult result
        (λ fs. (samples_after count samples.now ≡ or_bad_field (samples_of (fields fs.rest.now))) × (length (fields fs.rest.now) ≡ count))
        (λ e. samples_after count samples.now ≡ Err e) }
{
    let fields = Fields::new(samples)?;
    if fields.len() != count {
        return Err(Fault::BadLine);
    }
    Ok(fields)
}

// The pairs of position and level that fields write, for a block of `count` places: the positions rise.
#[derive(Drop)]
struct Pairs<'a> {
    fields: Fields<'a>,
    // The least position that may come next.
    from: usize,
    count: usize,
}

impl<'a> Pairs<'a> {
    // Each position has its level.
    #[tactic(auto, using(crate::proofs::Pairs::odd_after, crate::proofs::Pairs::even_after, crate::proofs::Pairs::reads_within))]
    fn new(pairs: &'a [u8], count: usize) -> Result<Pairs<'a>, Fault>
        ensures reads { MatchResult result
            (λ s. levels_after count pairs.now ≡ spread_all (replicate count (pos 0)) (gathered (pair_reads s.from s.count (fields s.fields.rest.now))))
            (λ e. levels_after count pairs.now ≡ Err e) }
        ensures within { IfOk result (λ s. AllByRecursion (IsWithin count) (pair_reads s.from s.count (fields s.fields.rest.now))) }
    {
        let fields = Fields::new(pairs)?;
        if fields.len() % 2 != 0 {
            return Err(Fault::BadLine);
        }
        Ok(Pairs {
            fields,
            from: 0,
            count,
        })
    }

    fn read(&mut self, position: &[u8], level: &[u8]) -> Result<(usize, i32), Fault>
        ensures is { result ≡ read_pair self.old.from self.old.count position.now level.now }
        ensures on { self.new.from ≡ behind_pair self.old.from result }
        ensures same { (self.new.count ≡ self.old.count) × (self.new.fields ≡ self.old.fields) }
    {
        let position = read_position(position, self.from, self.count)?;
        let level = read_level(level)?;
        self.from = position + 1;
        Ok((position, level))
    }
}

impl<'a> Iterator for Pairs<'a> {
    ghost use Rattle.std.specs.Iterator.{YieldsFirst, item_count};
    ghost use Rattle.film.specs.Fields.{fields};
    ghost use Rattle.film.specs.Leaves.{pair_reads};

    type Item = Result<(usize, i32), Fault>;

    ghost next_gives = { YieldsFirst (λ s. pair_reads s.from s.count (fields s.fields.rest.now)) };

    ghost remaining = { item_count (λ s. pair_reads s.from s.count (fields s.fields.rest.now)) };

    // Inlined, a pair need not go through memory on its way into the block.
    #[inline(always)]
    #[tactic(auto, using(crate::proofs::Pairs::reads_step))]
    fn next(&mut self) -> Option<Result<(usize, i32), Fault>> {
        let position = self.fields.next()?;
        let level = self.fields.next()?;
        Some(self.read(position, level))
    }
}
