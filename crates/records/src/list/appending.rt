// Appending, reading and counting the records of a list.
ghost use Rattle.std.specs.Prelude.{◌≡◌, [], ◌∷◌, ◌++◌, length, take, is_ok, if◌then◌else◌, nat_lt};
ghost use Rattle.std.specs.List.{slice_get};
ghost use Rattle.records.specs.Lists.{items, room_of, optional, Room, Grown};

use crate::list::{Full, RecordList};

impl<'a, T: Copy> RecordList<'a, T> {
    /// An empty list with room for as many records as the memory holds.
    pub fn new(room: &'a mut [T]) -> Self
        ensures none { items result ≡ [] }
        ensures room { room_of result ≡ length room.old }
    {
        RecordList { room, count: 0 }
    }

    /// How many records there are.
    pub fn count(&self) -> usize
        ensures { result ≡ length (items self.now) }
    {
        self.count
    }

    /// How many records there is room for.
    pub fn room(&self) -> usize
        ensures { result ≡ room_of self.now }
    {
        self.room.len()
    }

    /// The record with number `n`; none from the count on.
    pub fn read(&self, n: usize) -> Option<T>
        ensures { result ≡ slice_get (items self.now) n }
    {
        self.all().get(n).copied()
    }

    /// One record more; refused, and nothing altered, where the list is full.
    pub fn append(&mut self, x: T) -> Result<(), Full>
        ensures fits { is_ok result ≡ nat_lt (length (items self.old)) (room_of self.old) }
        ensures list { items self.new ≡ (if is_ok result then items self.old ++ x ∷ [] else items self.old) }
        ensures room { room_of self.new ≡ room_of self.old }
    {
        if self.count >= self.room.len() {
            return Err(Full);
        }
        self.room[self.count] = x;
        self.count += 1;
        Ok(())
    }

    /// Appends a record where there is one.
    pub fn append_some(&mut self, x: Option<T>)
        requires { Room self.old (optional x) }
        ensures { Grown self.old self.new (optional x) }
    {
        if let Some(record) = x {
            let _appended = self.append(record);
        }
    }

    /// Empties the list; its room stays.
    pub fn clear(&mut self)
        ensures none { items self.new ≡ [] }
        ensures room { room_of self.new ≡ room_of self.old }
    {
        self.count = 0;
    }

    /// The first `k` records, or all where there are fewer.
    pub fn first(&self, k: usize) -> &[T]
        ensures { result.now ≡ take k (items self.now) }
    {
        &self.room[..k.min(self.count)]
    }

    /// All records, in order.
    pub fn all(&self) -> &[T]
        ensures { result.now ≡ items self.now }
    {
        &self.room[..self.count]
    }
}

#[cfg(test)]
mod tests {
    use crate::list::{Full, RecordList};
    use crate::record::Record;
    use crate::step::Step;
    use std::test::Fail;
    use values::row::Row;

    #[test]
    fn a_full_step_list_refuses(rt: HostRuntime) {
        let mut memory = [Step::internal(7, 7); 2];
        let mut list = RecordList::new(&mut memory);
        assert!(rt; list.append(Step::internal(0, 1)).is_ok());
        assert!(rt; list.append(Step::meeting(1, 0, 2, 3, 4, 5)).is_ok());
        assert_eq!(rt; list.append(Step::internal(3, 0)), Err(Full));
        assert_eq!(rt; list.count(), 2);
        assert_eq!(rt; list.read(1), Some(Step::meeting(1, 0, 2, 3, 4, 5)));
        assert_eq!(rt; list.read(2), None);
    }

    #[test]
    fn a_journal_list_keeps_values(rt: HostRuntime) -> Result<(), Fail> {
        let row = Row {
            kind: 1,
            known: 1,
            number: 7,
        };
        let record = Record::new(Step::outside_send(0, 0, 1, 2), &[row]).ok_or("too many values")?;
        let mut memory = [record; 1];
        let mut list = RecordList::new(&mut memory);
        assert_eq!(rt; list.read(0).is_some(), false);
        assert!(rt; list.append(record).is_ok());
        assert_eq!(rt; list.append(record), Err(Full));
        let kept = list.read(0).ok_or("nothing kept")?;
        assert_eq!(rt; kept.count, 1);
        assert_eq!(rt; kept.values[0].number, 7);
        assert_eq!(rt; kept.values[3].known, 0);
        Ok(())
    }
}
