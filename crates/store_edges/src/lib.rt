// Tests of words, the cursor and the reversed cursor at their edges.
#![tactic(auto)]

#[cfg(test)]
mod tests {
    use backends::fault::{ReadFault, SeekError};
    use backends::generic::{extend_from_iter, is_exhausted, replace_newest};
    use backends::small::SmallStore;
    use backends::traits::{
        BoundedReadWords, BoundedWriteWords, Pos, Queue, ReadWords, Seek, Semantics, Stack,
        WriteWords,
    };
    use cursors::cursor::{Cursor, check_pos};
    use cursors::reverse::Reverse;
    use words::fault::BoundedWriteError;
    use words::{PartialWord, Word};

    // The next word in an order. (Each crate of tests has its own: a shared one would be a public call for tests alone.)
    fn next<W: Word, S: Semantics + Copy, B: ReadWords<W, S>>(
        _order: S,
        store: &mut B,
    ) -> Result<Option<W>, ReadFault> {
        store.read()
    }

    #[test]
    fn eight_bits_and_no_ninth(rt: HostRuntime) {
        let mut part = <u8 as Word>::Partial::new();
        assert_eq!(rt; part.read_bit(), None);
        for i in 0..8u32 {
            assert_eq!(rt; part.write_bit(i % 2 == 0), Ok(()));
        }
        assert_eq!(rt; part.write_bit(true), Err(BoundedWriteError::OutOfSpace));
        assert_eq!(rt; part.len(), 8);
        assert_eq!(rt; u8::closed(part), Some(0x55));
        assert_eq!(rt; u8::sealed(part), None);
        assert_eq!(rt; part.read_bit(), Some(false));
        assert_eq!(rt; u8::sealed(part), Some(0xD5));
    }

    #[test]
    fn the_highest_one_bit_is_the_seal(rt: HostRuntime) {
        let part = 0x0Du8.unsealed().expect(&rt, "13 is a seal above 101");
        assert_eq!(rt; part.len(), 3);
        assert_eq!(rt; u8::padded(part), 5);
        assert!(rt; 0u32.unsealed().is_none());
        assert_eq!(rt; u32::from_u64(0xffff_ffff), Some(0xffff_ffff));
        assert_eq!(rt; u32::from_u64(0x1_0000_0000), None);
    }

    #[test]
    fn an_empty_slice_holds_nothing(rt: HostRuntime) {
        let mut slots: [u8; 0] = [];
        let mut c = Cursor::new_at_pos(&mut slots, 0);
        assert_eq!(rt; c.write(7), Err(BoundedWriteError::OutOfSpace));
        assert_eq!(rt; next(Stack, &mut c), Ok(None));
        assert_eq!(rt; next(Queue, &mut c), Ok(None));
        assert_eq!(rt; c.space_left(), 0);
    }

    #[test]
    fn positions_past_the_slice(rt: HostRuntime) {
        assert_eq!(rt; check_pos(2, 2), Ok(()));
        assert_eq!(rt; check_pos(2, 3), Err(SeekError::PastEnd));
        assert_eq!(rt; check_pos(0x100_0000_0000_0001, 0), Err(SeekError::PastEnd));
        let mut slots = [1u32, 2];
        let mut c = Cursor::new_at_pos(&mut slots, 3);
        assert_eq!(rt; c.write(7), Err(BoundedWriteError::OutOfSpace));
        let mut d = Cursor::new_at_write_end(&mut slots);
        assert_eq!(rt; d.seek(3), Err(SeekError::PastEnd));
        assert_eq!(rt; d.pos(), 2);
        assert_eq!(rt; d.seek(1), Ok(()));
        assert_eq!(rt; next(Queue, &mut d), Ok(Some(2)));
        assert_eq!(rt; next(Queue, &mut d), Ok(None));
    }

    #[test]
    fn full_and_one_short_of_full(rt: HostRuntime) {
        let mut slots = [0u8; 3];
        let mut c = Cursor::new_at_write_beginning(&mut slots);
        assert_eq!(rt; extend_from_iter(&mut c, &[5, 6]), Ok(()));
        assert_eq!(rt; c.space_left(), 1);
        assert_eq!(rt;
            extend_from_iter(&mut c, &[7, 8]),
            Err(BoundedWriteError::OutOfSpace)
        );
        assert_eq!(rt; c.space_left(), 0);
        assert_eq!(rt; next(Stack, &mut c), Ok(Some(7)));
        assert_eq!(rt; replace_newest(&mut c, 9), Ok(Some(6)));
        assert_eq!(rt; next(Stack, &mut c), Ok(Some(9)));
    }

    #[test]
    fn the_reversed_cursor_fills_downward(rt: HostRuntime) {
        let mut slots = [1u8, 2, 3, 4, 5];
        let mut r = Reverse(Cursor::new_at_pos(&mut slots, 2));
        assert_eq!(rt; r.space_left(), 2);
        assert_eq!(rt; r.write(9), Ok(()));
        assert_eq!(rt; r.space_left(), 1);
        assert_eq!(rt; next(Stack, &mut r), Ok(Some(9)));
        assert_eq!(rt; next(Stack, &mut r), Ok(Some(3)));
    }

    #[test]
    fn a_turned_cursor_reads_the_same(rt: HostRuntime) {
        let mut slots = [1u8, 2, 3, 4, 5];
        let mut c = Reverse(Cursor::new_at_pos(&mut slots, 3)).into_reversed();
        assert_eq!(rt; c.pos(), 2);
        assert_eq!(rt; next(Queue, &mut c), Ok(Some(3)));
        assert_eq!(rt; next(Stack, &mut c), Ok(Some(3)));
    }

    // The small store is read in one order alone, so a call over it need not say which, turned or not.
    #[test]
    fn one_order_needs_no_name(rt: HostRuntime) {
        let mut store = SmallStore::new();
        assert_eq!(rt; store.write(7), Ok(()));
        assert_eq!(rt; store.write(9), Ok(()));
        let mut turned = Reverse(store);
        assert_eq!(rt; turned.read(), Ok(Some(9)));
        assert_eq!(rt; turned.remaining(), 1);
        assert!(rt; !is_exhausted(&turned));
    }

    #[test]
    fn the_newest_of_a_reversed_cursor_is_replaced(rt: HostRuntime) {
        // the borrow checker knows of the type `Queue`, under which the cursor is read here, only where it is named
        let _ = Queue;
        let mut slots = [1u8, 2, 3];
        let mut r = Reverse(Cursor::new_at_pos(&mut slots, 1));
        assert_eq!(rt; replace_newest(&mut r, 8), Ok(Some(2)));
        assert_eq!(rt; next(Stack, &mut r), Ok(Some(8)));
    }
}
