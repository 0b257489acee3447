//! The results of all workers by piece, and the least hit among them.
ghost use Rattle.std.specs.Prelude.{◌≡◌, length, All, IfOk, MatchResult, vec_len};
ghost use Rattle.nd_history.specs.Works.{IsEven, AreOldOrOf, WereEmpty, AreInBy, AreOfWorkers, AreIn, IsFirst, IsFirstGap};

use crate::work::Searched;
use std::alloc::{AllocError, Allocator};

// Enters a worker's results in the table, each at its piece.
fn put<A: Allocator>(searched: &Searched<A>, results: &mut [Option<Option<u64>>])
    requires { IsEven searched.now }
    ensures len { length results.new ≡ length results.old }
    ensures told { AreOldOrOf searched.now results.old results.new }
    ensures was_empty { WereEmpty results.old results.new }
    ensures all_in { AreInBy searched.now results.new }
{
    for k in 0..searched.found.len() {
        let piece = searched.claimed[k];
        if piece < results.len() as u64 {
            results[piece as usize] = Some(searched.found[k]);
        }
    }
}

/// Returns the result of each piece, `None` for a piece without a result.
pub(crate) fn results<A: Allocator + Copy>(
    alloc: A,
    works: &[Searched<A>],
    pieces: u64,
) -> Result<Vec<Option<Option<u64>>, A>, AllocError>
    requires { All IsEven works.now }
    ensures len { IfOk result (λ v. vec_len v ≡ pieces) }
    ensures told { IfOk result (λ v. AreOfWorkers works.now v.items) }
    ensures all_in { IfOk result (λ v. AreIn works.now v.items) }
{
    let mut results = Vec::with_capacity(alloc, pieces as usize)?;
    for _ in 0..pieces {
        results.push_reserved(None);
    }
    for searched in works {
        put(searched, results.as_mut_slice());
    }
    Ok(results)
}

/// Returns the hit of the first piece that has one, `None` if no piece has one. The error is the first piece
/// without a result, if no hit comes before it.
pub(crate) fn first(results: &[Option<Option<u64>>]) -> Result<Option<u64>, u64>
    ensures { MatchResult result (IsFirst results.now) (IsFirstGap results.now) }
{
    for (j, result) in results.iter().enumerate() {
        match result {
            None => return Err(j as u64),
            Some(Some(i)) => return Ok(Some(*i)),
            Some(None) => {}
        }
    }
    Ok(None)
}
