//! Numbers, times and pointstamps as bytes.
ghost use Rattle.std.specs.Prelude.{◌≡◌, ◌++◌, OnOk};
ghost use Rattle.nd_reach.specs.Bytes.{integer as integer_form, number as number_form, entry as entry_form, point as point_form, time as time_form};

use nd_paths::Pointstamp;
use nd_time::Timestamp;
use std::alloc::{AllocError, Allocator};

// The number of bytes of each form after the first.
pub(crate) const ONE: u64 = 252;

pub(crate) const TWO: u8 = 252;

pub(crate) const FOUR: u8 = 253;

pub(crate) const EIGHT: u8 = 254;

// Appends the form of a number.
pub(crate) fn put_number<A: Allocator>(bytes: &mut Vec<u8, A>, n: u64) -> Result<(), AllocError>
    ensures { OnOk result (bytes.new.items ≡ bytes.old.items ++ number_form n) }
{
    if n < ONE {
        bytes.push(n as u8)?;
    } else if n < 1 << 16 {
        bytes.push(TWO)?;
        bytes.extend_from_slice(&(n as u16).to_le_bytes())?;
    } else if n < 1 << 32 {
        bytes.push(FOUR)?;
        bytes.extend_from_slice(&(n as u32).to_le_bytes())?;
    } else {
        bytes.push(EIGHT)?;
        bytes.extend_from_slice(&n.to_le_bytes())?;
    }
    Ok(())
}

// Appends the form of an integer.
pub(crate) fn put_integer<A: Allocator>(bytes: &mut Vec<u8, A>, n: i64) -> Result<(), AllocError>
    ensures { OnOk result (bytes.new.items ≡ bytes.old.items ++ integer_form n) }
{
    if n >= 0 {
        put_number(bytes, 2 * n as u64)
    } else {
        put_number(bytes, 2 * (-(n + 1)) as u64 + 1)
    }
}

// Appends the form of a time.
pub(crate) fn put_time<A: Allocator>(
    bytes: &mut Vec<u8, A>,
    time: &Timestamp,
) -> Result<(), AllocError>
    ensures { OnOk result (bytes.new.items ≡ bytes.old.items ++ time_form time.now) }
{
    put_number(bytes, u64::from(time.epoch()))?;
    let counters = time.counters();
    put_number(bytes, counters.len() as u64)?;
    for counter in counters {
        put_number(bytes, u64::from(*counter))?;
    }
    Ok(())
}

// Appends the form of a pointstamp.
pub(crate) fn put_point<A: Allocator>(
    bytes: &mut Vec<u8, A>,
    point: &Pointstamp,
) -> Result<(), AllocError>
    ensures { OnOk result (bytes.new.items ≡ bytes.old.items ++ point_form point.now) }
{
    put_number(bytes, point.location as u64)?;
    put_time(bytes, &point.time)
}

// Appends the form of a pointstamp with an integer.
pub(crate) fn put_entry<A: Allocator>(
    bytes: &mut Vec<u8, A>,
    point: &Pointstamp,
    n: i64,
) -> Result<(), AllocError>
    ensures { OnOk result (bytes.new.items ≡ bytes.old.items ++ entry_form (point.now, n)) }
{
    put_point(bytes, point)?;
    put_integer(bytes, n)
}
