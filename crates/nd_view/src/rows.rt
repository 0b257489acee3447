//! Numbers of pointstamps, in one sorted list for each location.

ghost use Rattle.std.specs.Prelude.{◌≡◌, [], ◌≤◌, ◌<◌, Contains, IfErr, IfOk, OnErr, OnOk, length};
ghost use Rattle.std.specs.Ordering.{nat_cmp};
ghost use Rattle.std.specs.FinMap.{find, put};
ghost use Rattle.nd_map.specs.Listed.{IsListed, without};
ghost use Rattle.nd_paths.specs.Point.{point_cmp};
ghost use Rattle.nd_view.specs.Links.{IsRun};
ghost use Rattle.nd_view.specs.Rows.{AreRows, IsGapFor, IsPutIn, IsRowOf, all_of, joined, points_by_row, row_of};

use nd_map::SortedMap;
use nd_paths::Pointstamp;
use std::alloc::{AllocError, Allocator, Global};
use std::cmp::Ordering;
use std::marker::Model;

// The numbers of the pointstamps at one location.
#[derive(Drop)]
struct Row<A: Allocator> {
    location: usize,
    numbers: SortedMap<Pointstamp, u64, A>,
}

/// A map from pointstamps to numbers, seen as the list of its rows: the entries at each location that has
/// had one, in the order of listing.
///
/// A look-up searches the locations and then one row. An edit moves at most the entries of one row.
#[derive(Drop)]
pub struct Rows<A: Allocator = Global> {
    alloc: A,
    rows: Vec<Row<A>, A>,
}

impl<A: Allocator> Model for Rows<A> {
    ghost use Rattle.std.specs.Prelude.{List, map};
    ghost use Rattle.nd_view.specs.Rows.{AreRows, Row as Entries};

    ghost Value = { List Entries };

    ghost view = { λ a. map (λ r. r.numbers) a.rows.items };

    ghost invariant = { λ a. AreRows a.rows.items };
}

// Returns the index of the row of a location, or as an error the index at which it would be inserted.
fn place<A: Allocator>(rows: &[Row<A>], location: usize) -> Result<usize, usize>
    requires { AreRows rows.now }
    ensures in_range { IfOk result (λ r. r < length rows.now) }
    ensures within { IfErr result (λ r. r ≤ length rows.now) }
    ensures found { IfOk result (IsRowOf location rows.now) }
    ensures absent { IfErr result (IsGapFor location rows.now) }
{
    rows.binary_search_by(
        |row: &Row<A>| -> Ordering
            ensures { result ≡ nat_cmp row.now.location location }
        { row.location.cmp(&location) },
    )
}

// Returns the index of the row of a location. A location without a row gets an empty one.
fn row_for<A: Allocator + Copy>(
    rows: &mut Vec<Row<A>, A>,
    alloc: A,
    location: usize,
) -> Result<usize, AllocError>
    requires { AreRows rows.old.items }
    ensures in_range { IfOk result (λ r. r < length rows.new.items) }
    ensures found { IfOk result (IsRowOf location rows.new.items) }
    ensures rows { AreRows rows.new.items }
    ensures same { all_of rows.new.items ≡ all_of rows.old.items }
{
    match place(rows, location) {
        Ok(r) => Ok(r),
        Err(r) => {
            let row = Row {
                location,
                numbers: SortedMap::new(alloc),
            };
            let Ok(()) = rows.insert(r, row) else {
                return Err(AllocError);
            };
            Ok(r)
        }
    }
}

// Returns a copy of the rows.
fn copy_rows<A: Allocator + Copy>(alloc: A, rows: &[Row<A>]) -> Result<Vec<Row<A>, A>, AllocError>
    ensures { IfOk result (λ v. v.items ≡ rows.now) }
{
    let mut copied = Vec::with_capacity(alloc, rows.len())?;
    for row in rows {
        let numbers = row.numbers.copy(alloc)?;
        copied.push(Row {
            location: row.location,
            numbers,
        })?;
    }
    Ok(copied)
}

impl<A: Allocator + Copy> Rows<A> {
    /// Returns the map with no entry. It takes no memory.
    pub fn new(alloc: A) -> Rows<A>
        ensures { result ≡ [] }
    {
        Rows {
            alloc,
            rows: Vec::new(alloc),
        }
    }

    /// Returns the number of rows.
    pub fn len(&self) -> usize
        ensures value { result ≡ length self.now }
        ensures listed { IsListed point_cmp (joined self.now) }
    {
        self.rows.len()
    }

    /// Returns the entries of a row, which are at one location, in the order of listing.
    #[inline(always)]
    pub fn row(&self, r: usize) -> &[(Pointstamp, u64)]
        requires { r < length self.now }
        ensures value { result.now ≡ row_of self.now r }
        ensures listed { IsListed point_cmp result.now }
        ensures run { IsRun result.now 0 (length result.now) }
        ensures all { IsListed point_cmp (joined self.now) }
    {
        self.rows[r].numbers.entries()
    }

    /// Returns the entries at a location, in the order of listing.
    pub fn at_location(&self, location: usize) -> &[(Pointstamp, u64)]
        ensures listed { IsListed point_cmp result.now }
        ensures among { (e : _) → Contains result.now e → Contains (joined self.now) e }
        ensures all { IsListed point_cmp (joined self.now) }
    {
        match place(&self.rows, location) {
            Ok(r) => self.rows[r].numbers.entries(),
            Err(_) => &[],
        }
    }

    /// Returns the number of a pointstamp, if it has one.
    pub fn get(&self, point: &Pointstamp) -> Option<u64>
        ensures value { result ≡ find point_cmp point.now (joined self.now) }
        ensures listed { IsListed point_cmp (joined self.now) }
    {
        match place(&self.rows, point.location) {
            Ok(r) => self.rows[r].numbers.get(point),
            Err(_) => None,
        }
    }

    /// Sets the number of a pointstamp.
    pub fn put(&mut self, point: &Pointstamp, n: u64) -> Result<(), AllocError>
        ensures ok { OnOk result (joined self.new ≡ put point_cmp point.now n (joined self.old)) }
        ensures err { OnErr result (joined self.new ≡ joined self.old) }
        ensures listed { IsListed point_cmp (joined self.new) }
        ensures was_listed { IsListed point_cmp (joined self.old) }
    {
        let r = row_for(&mut self.rows, self.alloc, point.location)?;
        self.rows[r].numbers.put(point, n)
    }

    /// Sets the number of an entry of a row. It takes no memory.
    #[inline(always)]
    pub fn put_at(&mut self, r: usize, k: usize, n: u64)
        requires row { r < length self.old }
        requires entry { k < length (row_of self.old r) }
        ensures value { IsPutIn r k n self.old self.new }
        ensures points { points_by_row self.new ≡ points_by_row self.old }
        ensures listed { IsListed point_cmp (joined self.new) }
        ensures was_listed { IsListed point_cmp (joined self.old) }
    {
        self.rows[r].numbers.put_at(k, n);
    }

    /// Removes a pointstamp and its number, if it has one. It takes no memory.
    pub fn remove(&mut self, point: &Pointstamp)
        ensures value { joined self.new ≡ without point_cmp point.now (joined self.old) }
        ensures listed { IsListed point_cmp (joined self.new) }
        ensures was_listed { IsListed point_cmp (joined self.old) }
    {
        if let Ok(r) = place(&self.rows, point.location) {
            self.rows[r].numbers.remove(point);
        }
    }

    /// Returns an equal map.
    pub fn copy(&self, alloc: A) -> Result<Rows<A>, AllocError>
        ensures equal { IfOk result (λ m. m ≡ self.now) }
        ensures listed { IsListed point_cmp (joined self.now) }
    {
        let rows = copy_rows(alloc, &self.rows)?;
        Ok(Rows { alloc, rows })
    }
}
