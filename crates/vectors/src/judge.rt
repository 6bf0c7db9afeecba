// Cases judged by the transforms of their standards.
ghost use Rattle.std.specs.Prelude.{length, IfOk, Decides};
ghost use Rattle.std.specs.Option.{option_copied};
ghost use Rattle.transform.specs.Outcome.{rebuilding};
ghost use Rattle.film.specs.Standards.{number_of};
ghost use Rattle.vectors.specs.Agreement.{Agrees, Deserved, Judged, Settled, outcome, rebuilt_case, values_of};

use crate::case::Case;
use crate::reading::{Misread, read_case};
use crate::verdict::Verdict;
use film::Standard;
use hevc::{Hevc, MatrixSums};
use std::alloc::{AllocError, Global};
use transform::{Fault, Transform};

// Whether an answer of `rebuild`, with the block that it left, is what a case expects.
fn agrees(answer: Result<(), Fault>, rebuilt: &[i32], expected: Option<&[i32]>) -> bool
    ensures { Decides result (Agrees (outcome answer rebuilt.now) (option_copied expected.entry)) }
{
    match (answer, expected) {
        (Ok(()), Some(values)) => rebuilt == values,
        (Err(Fault::NothingRebuilt { .. }), None) => true,
        _ => false,
    }
}

// A case rebuilt by a transform into a block.
fn compare<T: Transform>(transform: &T, case: &Case, block: &mut [i32]) -> Verdict
    ensures { Judged (rebuilding (T.meaning transform.now (number_of case.now.standard)) (number_of case.now.standard) case.now.side case.now.step case.now.levels.items (length block.old)) (values_of case.now) result }
{
    let answer = transform.rebuild(case.mode(), case.levels.as_slice(), block);
    if agrees(answer, block, case.expected.as_deref()) {
        Verdict::Same
    } else {
        Verdict::Differs
    }
}

// The verdict on a case whose standard has a transform here.
fn judge_by<T: Transform>(heap: Global, transform: &T, case: &Case) -> Result<Verdict, AllocError>
    ensures { IfOk result (Judged (rebuilt_case (T.meaning transform.now (number_of case.now.standard)) case.now) (values_of case.now)) }
{
    let mut block = vec![in heap; 0; case.levels.len()]?;
    Ok(compare(transform, case, block.as_mut_slice()))
}

fn judge(heap: Global, case: &Case) -> Result<Verdict, AllocError>
    ensures { IfOk result (Deserved case.now) }
{
    match case.standard {
        Standard::Hevc => judge_by(heap, &Hevc::new(MatrixSums), case),
        Standard::H264 | Standard::Vc1 => Ok(Verdict::Unserved),
    }
}

pub(crate) fn judge_line(heap: Global, line: &str) -> Result<Verdict, AllocError>
    ensures { IfOk result Settled }
{
    match read_case(heap, line) {
        Ok(case) => judge(heap, &case),
        Err(Misread::Form) => Ok(Verdict::Unreadable),
        Err(Misread::Memory) => Err(AllocError),
    }
}
