// Tests of words and the cursor at their edges, at each width.
#![tactic(auto)]

#[cfg(test)]
mod tests {
    use backends::fault::ReadFault;
    use backends::traits::{
        BoundedReadWords, BoundedWriteWords, Queue, ReadWords, Semantics, Stack, WriteWords,
    };
    use cursors::cursor::Cursor;
    use model::refusal::Refusal;
    use std::process::Abort;
    use words::fault::BoundedWriteError;
    use words::{Partial8, Partial32, Partial64, PartialWord, Word};

    // A partial word takes as many bits as its word has, and is full then; one bit fewer leaves room for the seal.
    fn filled<W: Word>(rt: &impl Abort, bits: u32) {
        assert_eq!(rt; W::width(), bits);
        let mut part = W::Partial::new();
        assert!(rt; part.is_empty());
        assert_eq!(rt; part.read_bit(), None);
        for i in 0..bits {
            assert_eq!(rt; part.len(), i);
            assert!(rt; !part.is_full());
            assert_eq!(rt; part.write_bit(i + 1 == bits), Ok(()));
        }
        assert!(rt; part.is_full());
        assert_eq!(rt; part.write_bit(true), Err(BoundedWriteError::OutOfSpace));
        assert_eq!(rt; part.read_bit(), Some(true));
        assert_eq!(rt; part.len(), bits - 1);
        assert_eq!(rt; part.read_bit(), Some(false));
    }

    #[test]
    fn as_many_bits_as_the_width(rt: HostRuntime) {
        filled::<u8>(&rt, 8);
        filled::<u32>(&rt, 32);
        filled::<u64>(&rt, 64);
    }

    // The same answers at every width: `half` has all bits but the highest, `ends` the highest and the lowest, `largest` all.
    fn answered<W: Word>(rt: &impl Abort, bits: u32, half: u64, ends: u64, largest: u64) {
        let all = W::from_u64(largest).expect(rt, "the largest number is a word");
        let edges = W::from_u64(ends).expect(rt, "the lowest and the highest bit are a word");
        let thirteen = W::from_u64(13).expect(rt, "13 is a word");
        let none = W::from_u64(0).expect(rt, "0 is a word");
        assert_eq!(rt; all.to_u64(), largest);
        assert_eq!(rt; all.halved().1.to_u64(), half);
        assert_eq!(rt; thirteen.halved().0, true);
        assert_eq!(rt; thirteen.halved().1.to_u64(), 6);
        assert_eq!(rt; none.halved().0, false);

        // The lowest and the highest bit are one.
        let mut part = edges.opened();
        assert_eq!(rt; part.len(), bits);
        assert_eq!(rt; W::closed(part).map(W::to_u64), Some(ends));
        assert_eq!(rt; W::sealed(part).map(W::to_u64), None);
        assert_eq!(rt; part.read_bit(), Some(true));
        assert_eq!(rt; part.len(), bits - 1);
        assert_eq!(rt; W::closed(part).map(W::to_u64), None);
        assert_eq!(rt; W::padded(part).to_u64(), 1);
        assert_eq!(rt; W::sealed(part).map(W::to_u64), Some(ends));
        assert_eq!(rt; part.write_bit(true), Ok(()));
        assert_eq!(rt; part.write_bit(true), Err(BoundedWriteError::OutOfSpace));

        // 1101 is the bits 1, 0, 1, oldest first, and the seal.
        let mut below = thirteen.unsealed().expect(rt, "13 is sealed");
        assert_eq!(rt; W::padded(below).to_u64(), 5);
        assert_eq!(rt; W::sealed(below).map(W::to_u64), Some(13));
        assert_eq!(rt; below.read_bit(), Some(true));
        assert_eq!(rt; below.read_bit(), Some(false));
        assert_eq!(rt; below.write_bit(true), Ok(()));
        assert_eq!(rt; W::sealed(below).map(W::to_u64), Some(7));
        assert_eq!(rt; below.len(), 2);

        let most = all.unsealed().expect(rt, "the largest word is sealed");
        assert_eq!(rt; most.len(), bits - 1);
        assert_eq!(rt; W::padded(most).to_u64(), half);
        assert!(rt; none.unsealed().is_none());
    }

    #[test]
    fn the_same_answers_at_every_width(rt: HostRuntime) {
        answered::<u8>(&rt, 8, 0x7f, 0x81, 0xff);
        answered::<u32>(&rt, 32, 0x7fff_ffff, 0x8000_0001, 0xffff_ffff);
        answered::<u64>(
            &rt,
            64,
            0x7fff_ffff_ffff_ffff,
            0x8000_0000_0000_0001,
            0xffff_ffff_ffff_ffff,
        );
    }

    // What is held in a word's own types: the mask is the place of the newest bit.
    #[test]
    fn masks(rt: HostRuntime) {
        let part: Partial8 = 0x0Du8.opened();
        assert_eq!(rt; (part.word, part.mask), (0x0D, 0x80));
        let part: Partial32 = 0x0Du32.opened();
        assert_eq!(rt; (part.word, part.mask), (0x0D, 0x8000_0000));
        let part: Partial64 = 0x0Du64.opened();
        assert_eq!(rt; (part.word, part.mask), (0x0D, 0x8000_0000_0000_0000));
        let mut none = Partial8::new();
        assert_eq!(rt; (none.word, none.mask), (0, 0));
        assert_eq!(rt; none.write_bit(true), Ok(()));
        assert_eq!(rt; none.write_bit(false), Ok(()));
        assert_eq!(rt; (none.word, none.mask), (1, 2));
        assert_eq!(rt; none.read_bit(), Some(false));
        assert_eq!(rt; (none.word, none.mask), (1, 1));
    }

    #[test]
    fn no_room_is_refusal_one(rt: HostRuntime) {
        assert_eq!(rt; Refusal::from(BoundedWriteError::OutOfSpace), Refusal::Full);
    }

    #[test]
    fn the_largest_numbers(rt: HostRuntime) {
        assert_eq!(rt; u8::from_u64(0xff), Some(0xff));
        assert_eq!(rt; u8::from_u64(0x100), None);
        assert_eq!(rt; u32::from_u64(0xffff_ffff), Some(0xffff_ffff));
        assert_eq!(rt; u32::from_u64(0x1_0000_0000), None);
        assert_eq!(rt;
            u64::from_u64(0xffff_ffff_ffff_ffff),
            Some(0xffff_ffff_ffff_ffff)
        );
        assert_eq!(rt; 1u64.halved(), (true, 0));
    }

    // The largest word is a seal above all other bits, 1 is a seal above none, and 0 is no seal.
    #[test]
    fn seals(rt: HostRuntime) {
        let part = 0xffff_ffff_ffff_ffffu64
            .unsealed()
            .expect(&rt, "the largest word is a seal");
        assert_eq!(rt; part.len(), 63);
        assert_eq!(rt; u64::padded(part), 0x7fff_ffff_ffff_ffff);
        assert_eq!(rt; u64::sealed(part), Some(0xffff_ffff_ffff_ffff));
        let part = 1u32.unsealed().expect(&rt, "1 is a seal");
        assert!(rt; part.is_empty());
        assert!(rt; 0u64.unsealed().is_none());
        assert!(rt; u64::sealed(0x8000_0000_0000_0000u64.opened()).is_none());
        assert_eq!(rt; u32::closed(0x8000_0001u32.opened()), Some(0x8000_0001));
    }

    // The next word in an order, and how many there are. (Each crate of tests has its own: a shared one would be a public call for tests alone.)
    fn next<W: Word, S: Semantics + Copy, B: ReadWords<W, S>>(
        _order: S,
        store: &mut B,
    ) -> Result<Option<W>, ReadFault> {
        store.read()
    }

    fn left<W: Word, S: Semantics + Copy, B: BoundedReadWords<W, S>>(
        _order: S,
        store: &B,
    ) -> usize {
        store.remaining()
    }

    #[test]
    fn a_slice_of_wide_words(rt: HostRuntime) {
        let mut slots = [1u64, 2];
        let mut c = Cursor::new_at_pos(&mut slots, 1);
        assert_eq!(rt; left(Stack, &c), 1);
        assert_eq!(rt; left(Queue, &c), 1);
        assert_eq!(rt; c.space_left(), 1);
        assert_eq!(rt; c.write(0xffff_ffff_ffff_ffff), Ok(()));
        assert_eq!(rt; left(Queue, &c), 0);
        assert_eq!(rt; c.write(3), Err(BoundedWriteError::OutOfSpace));
        assert_eq!(rt; next(Queue, &mut c), Ok(None));
        assert_eq!(rt; next(Stack, &mut c), Ok(Some(0xffff_ffff_ffff_ffff)));
        assert_eq!(rt; next(Stack, &mut c), Ok(Some(1)));
        assert_eq!(rt; next(Stack, &mut c), Ok(None));
    }
}
