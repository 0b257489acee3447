//! What the processors hold at a pointstamp.
ghost use Rattle.std.specs.Prelude.{◌≡◌, ◌++◌, IfOk, OnOk};
ghost use Rattle.nd_why.specs.Why.{if_at, records_at, requests_at, tokens_at, held_by, held_at as all_held};

use crate::Held;
use nd_paths::Pointstamp;
use nd_processor::{Processor, token_point};
use std::alloc::{AllocError, Allocator};

// Appends `one` to the list if the two pointstamps are equal.
fn push_if<A: Allocator>(
    held: &mut Vec<Held, A>,
    point: &Pointstamp,
    at: &Pointstamp,
    one: Held,
) -> Result<(), AllocError>
    ensures { OnOk result (held.new.items ≡ held.old.items ++ if_at point.now at.now one) }
{
    if point.cmp(at).is_eq() {
        held.push(one)?;
    }
    Ok(())
}

// Appends the records of processor `p` at a pointstamp to the list.
fn push_records<A: Allocator + Copy>(
    held: &mut Vec<Held, A>,
    p: usize,
    processor: &Processor<A>,
    point: &Pointstamp,
) -> Result<(), AllocError>
    ensures { OnOk result (held.new.items
        ≡ held.old.items ++ records_at p processor.now point.now) }
{
    for (key, count) in processor.records() {
        let records = Held::Records {
            p,
            value: key.value,
            count: *count,
        };
        push_if(held, point, &key.point, records)?;
    }
    Ok(())
}

// Appends the request of processor `p` at a pointstamp to the list, if there is one.
fn push_requests<A: Allocator + Copy>(
    held: &mut Vec<Held, A>,
    p: usize,
    processor: &Processor<A>,
    point: &Pointstamp,
) -> Result<(), AllocError>
    ensures { OnOk result (held.new.items
        ≡ held.old.items ++ requests_at p processor.now point.now) }
{
    for (key, _) in processor.requests() {
        push_if(held, point, key, Held::Request { p })?;
    }
    Ok(())
}

// Appends the token of processor `p` at a pointstamp to the list, if there is one.
fn push_tokens<A: Allocator + Copy>(
    held: &mut Vec<Held, A>,
    p: usize,
    processor: &Processor<A>,
    point: &Pointstamp,
) -> Result<(), AllocError>
    ensures { OnOk result (held.new.items ≡ held.old.items ++ tokens_at p processor.now point.now) }
{
    for token in processor.tokens() {
        push_if(
            held,
            point,
            &token_point(token.0, token.1),
            Held::Token { p },
        )?;
    }
    Ok(())
}

// Appends all that processor `p` holds at a pointstamp to the list.
fn push_held<A: Allocator + Copy>(
    held: &mut Vec<Held, A>,
    p: usize,
    processor: &Processor<A>,
    point: &Pointstamp,
) -> Result<(), AllocError>
    ensures { OnOk result (held.new.items ≡ held.old.items ++ held_by p processor.now point.now) }
{
    push_records(held, p, processor, point)?;
    push_requests(held, p, processor, point)?;
    push_tokens(held, p, processor, point)
}

/// Returns all that is outstanding at a pointstamp, processor by processor.
pub(crate) fn held_at<A: Allocator + Copy>(
    alloc: A,
    processors: &[Processor<A>],
    point: &Pointstamp,
) -> Result<Vec<Held, A>, AllocError>
    ensures { IfOk result (λ v. v.items ≡ all_held processors.now point.now) }
{
    let mut held = Vec::new(alloc);
    for p in 0..processors.len() {
        push_held(&mut held, p, &processors[p], point)?;
    }
    Ok(held)
}
