// Runs at the edges of the record stores and of the small store.
#![tactic(auto)]

#[cfg(test)]
mod tests {
    use backends::fault::ReadFault;
    use backends::generic::replace_newest;
    use backends::small::SmallStore;
    use backends::traits::{
        BoundedReadWords, BoundedWriteWords, Queue, ReadWords, Semantics, Stack, WriteWords,
    };
    use records::fault::RecordError;
    use records::reader::Records;
    use records::record::check_records;
    use records::store::RecordStore;
    use words::fault::BoundedWriteError;

    // The next word in an order. (Each crate of tests has its own: a shared one would be a public call for tests alone.)
    fn next<S: Semantics + Copy, B: ReadWords<u32, S>>(
        _order: S,
        store: &mut B,
    ) -> Result<Option<u32>, ReadFault> {
        store.read()
    }

    // 12 goes before 7, and the end is a record number.
    #[test]
    fn bytes_and_record_numbers(rt: HostRuntime) {
        assert_eq!(rt; check_records(0, 0), Ok(()));
        assert_eq!(rt; check_records(0, 1), Err(RecordError::Misplaced));
        assert_eq!(rt; check_records(9, 3), Err(RecordError::Ragged));
        assert_eq!(rt; check_records(10, 3), Err(RecordError::Misplaced));
        assert_eq!(rt; check_records(10, 2), Ok(()));
    }

    // The record A7 07 00 00 08, in the last place.
    #[test]
    fn one_record(rt: HostRuntime) {
        let mut bytes = [1, 0, 0, 0, 1, 9, 9, 9, 9, 9];
        let mut store = RecordStore::new_at_pos(&mut bytes, 1);
        assert_eq!(rt; store.space_left(), 1);
        assert_eq!(rt; store.write(0x7A7), Ok(()));
        assert_eq!(rt; store.write(1), Err(BoundedWriteError::OutOfSpace));
        let (bytes, pos) = store.into_bytes_and_pos();
        assert_eq!(rt; pos, 2);
        let bytes: &[u8] = bytes;
        assert_eq!(rt; bytes, [1, 0, 0, 0, 1, 0xA7, 7, 0, 0, 8].as_slice());
    }

    // Faults in the first place and in the last: a fifth byte that is one too low or too high.
    #[test]
    fn faults_at_the_ends(rt: HostRuntime) {
        let bytes = [1, 0, 0, 0, 0, 1, 0, 0, 0, 1, 0xFF, 0xFF, 0xFF, 0xFF, 33];
        let mut first = Records::new_at_pos(&bytes, 0);
        assert_eq!(rt; next(Queue, &mut first), Err(ReadFault { place: 0 }));
        let mut last = Records::new_at_pos(&bytes, 3);
        assert_eq!(rt; next(Stack, &mut last), Err(ReadFault { place: 2 }));
        assert_eq!(rt; next(Queue, &mut last), Ok(None));
    }

    // A fault between two words is told again and again.
    #[test]
    fn a_fault_between(rt: HostRuntime) {
        let bytes = [1, 0, 0, 0, 1, 0xA7, 7, 0, 0, 7, 0, 0, 0, 0, 0];
        let mut records = Records::new_at_pos(&bytes, 3);
        assert_eq!(rt; next(Stack, &mut records), Ok(Some(0)));
        assert_eq!(rt; next(Stack, &mut records), Err(ReadFault { place: 1 }));
        assert_eq!(rt; next(Stack, &mut records), Err(ReadFault { place: 1 }));
        let mut before = Records::new_at_pos(&bytes, 1);
        assert_eq!(rt; next(Stack, &mut before), Ok(Some(1)));
        assert_eq!(rt; next(Stack, &mut before), Ok(None));
    }

    // No bytes at all, and bytes that are refused.
    #[test]
    fn nothing_there(rt: HostRuntime) {
        let mut none = Records::new_at_pos(&[], 0);
        assert_eq!(rt; next(Stack, &mut none), Ok(None));
        assert_eq!(rt; next(Queue, &mut none), Ok(None));
        let mut bytes = [1, 0, 0, 0, 1, 1];
        let mut ragged = RecordStore::new_at_pos(&mut bytes, 1);
        assert_eq!(rt; next(Stack, &mut ragged), Ok(None));
        assert_eq!(rt; ragged.write(1), Err(BoundedWriteError::OutOfSpace));
    }

    // The small store one short of full, full, and read again.
    #[test]
    fn eight_words(rt: HostRuntime) {
        let mut store = SmallStore::new();
        assert_eq!(rt; store.read(), Ok(None));
        for word in 1..8 {
            assert_eq!(rt; store.write(word), Ok(()));
        }
        assert_eq!(rt; store.space_left(), 1);
        assert_eq!(rt; store.write(8), Ok(()));
        assert_eq!(rt; store.write(9), Err(BoundedWriteError::OutOfSpace));
        assert_eq!(rt; store.read(), Ok(Some(8)));
    }

    // One call over any word stack, at the two stores here.
    #[test]
    fn the_newest_is_replaced(rt: HostRuntime) {
        let mut small = SmallStore::new();
        assert_eq!(rt; replace_newest(&mut small, 5), Ok(None));
        assert_eq!(rt; small.write(4), Ok(()));
        assert_eq!(rt; replace_newest(&mut small, 5), Ok(Some(4)));
        assert_eq!(rt; small.read(), Ok(Some(5)));
        let mut bytes = [1, 0, 0, 0, 1, 1, 0, 0, 0, 2];
        let mut good = RecordStore::new_at_pos(&mut bytes, 1);
        assert_eq!(rt; replace_newest(&mut good, 3), Ok(Some(1)));
        assert_eq!(rt; next(Stack, &mut good), Ok(Some(3)));
        let mut bad = RecordStore::new_at_pos(&mut bytes, 2);
        assert_eq!(rt; replace_newest(&mut bad, 3), Err(ReadFault { place: 1 }));
    }
}
