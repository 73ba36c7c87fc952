// Lists of records in memory that the caller lends.
ghost use Rattle.std.specs.Prelude.{◌≤◌, length};

pub mod appending;

/// A list of stated room over memory that the caller lends, for any kind of record: it never allocates.
#[derive(Drop)]
pub struct RecordList<'a, T> {
    room: &'a mut [T],
    count: usize,
    ghost within: { count ≤ length room.now },
}

/// A record that found the list full.
#[derive(Clone, Copy, PartialEq, Eq, Debug)]
pub struct Full;
