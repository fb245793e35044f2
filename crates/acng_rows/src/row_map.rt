//! Changes of a path's row. None but `reserve` takes memory.
ghost use Rattle.std.specs.Prelude.{◌≡◌, true, not, Some, OnOk, OnErr, IfOk, is_some, option_copied};
ghost use Rattle.std.specs.Option.{option_map};
ghost use Rattle.std.specs.FinMap as map;
ghost use Rattle.acng_rows.specs.Rows.{whole_in, out_in, whole_at, id_in_whole, stamped_in};
ghost use Rattle.acng_rows.specs.Rows.{with_whole, with_out, restamped, closed, without_whole, reserved, released};

use crate::path_map::PathMap;
use crate::row::{Out, Row, Whole};
use crate::stamp::Stamp;
use acng_base::{CachePath, NoMemory};
use std::alloc::Global;

fn has_whole<T>(row: Option<&Row<T>>) -> bool
    ensures { result ≡ is_some (whole_in (option_copied row.entry)) }
{
    match row {
        Some(row) => row.whole.is_some(),
        None => false,
    }
}

fn has_out<T>(row: Option<&Row<T>>) -> bool
    ensures { result ≡ is_some (out_in (option_copied row.entry)) }
{
    match row {
        Some(row) => row.out.is_some(),
        None => false,
    }
}

/// The id of a row's whole body.
pub(crate) fn whole_id<T>(row: Option<&Row<T>>) -> Option<u64>
    ensures { result ≡ id_in_whole (whole_in (option_copied row.entry)) }
{
    let row = row?;
    match &row.whole {
        Some(whole) => Some(whole.id),
        None => None,
    }
}

fn stamped(whole: Option<Whole>, stamp: Stamp) -> Option<Whole>
    ensures { result ≡ stamped_in stamp whole }
{
    match whole {
        Some(whole) => Some(whole.stamped(stamp)),
        None => None,
    }
}

impl<T: Drop> PathMap<Row<T>> {
    /// Puts out a ticket of a row, or takes it in.
    pub fn set_out(&mut self, path: &CachePath, out: Option<Box<Out<T>>>)
        requires { map.contains_key self.old path.now ≡ true }
        ensures { self.new ≡ with_out self.old path.now (option_map (λ b. b.value) out) }
    {
        match self.list.get_mut(path) {
            Some(row) => row.out = out,
            None => unreachable!(),
        }
    }

    /// Gives a row this whole body, in place of what it had.
    pub fn set_whole(&mut self, path: &CachePath, whole: Option<Whole>)
        requires { map.contains_key self.old path.now ≡ true }
        ensures { self.new ≡ with_whole self.old path.now whole }
    {
        match self.list.get_mut(path) {
            Some(row) => row.whole = whole,
            None => unreachable!(),
        }
    }

    /// Gives a row this whole body, and the id of the one that it had.
    pub fn swap_whole(&mut self, path: &CachePath, whole: Whole) -> Option<u64>
        requires { map.contains_key self.old path.now ≡ true }
        ensures rows { self.new ≡ with_whole self.old path.now (Some whole) }
        ensures old { result ≡ id_in_whole (whole_at self.old path.now) }
    {
        let old = whole_id(self.get(path));
        self.set_whole(path, Some(whole));
        old
    }

    /// Gives the whole body of a row another moment.
    pub fn stamp(&mut self, path: &CachePath, stamp: Stamp)
        requires { map.contains_key self.old path.now ≡ true }
        ensures { self.new ≡ restamped stamp self.old path.now }
    {
        let Row { whole, out } = self.swap(
            path,
            Row {
                whole: None,
                out: None,
            },
        );
        let whole = stamped(whole, stamp);
        let _ = self.swap(path, Row { whole, out });
    }

    /// No ticket of the path is out any more. A row with no whole body goes, unless something else is to stay.
    pub fn close(&mut self, path: &CachePath, stays: bool)
        requires { map.contains_key self.old path.now ≡ true }
        ensures { self.new ≡ closed self.old path.now stays }
    {
        if stays || has_whole(self.get(path)) {
            self.set_out(path, None);
        } else {
            let _ = self.remove(path);
        }
    }

    /// The path has no whole body any more. A row of which no ticket is out goes.
    pub fn drop_whole(&mut self, path: &CachePath)
        ensures { self.new ≡ without_whole self.old path.now }
    {
        if has_out(self.get(path)) {
            self.set_whole(path, None);
        } else {
            let _ = self.remove(path);
        }
    }

    /// Makes room for the row of a path, and says whether there was none.
    pub fn reserve(&mut self, alloc: Global, path: &CachePath) -> Result<bool, NoMemory>
        ensures rows { IfOk result (λ made. self.new ≡ reserved made self.old path.now) }
        ensures made { IfOk result (λ made. made ≡ not (map.contains_key self.old path.now)) }
        ensures same { OnErr result (self.new ≡ self.old) }
    {
        if self.has(path) {
            return Ok(false);
        }
        let key = path.again(alloc)?;
        self.put(
            key,
            Row {
                whole: None,
                out: None,
            },
        )?;
        Ok(true)
    }

    /// Takes back the room that was made.
    pub fn release(&mut self, path: &CachePath, made: bool)
        ensures { self.new ≡ released made self.old path.now }
    {
        if made {
            let _ = self.remove(path);
        }
    }
}
