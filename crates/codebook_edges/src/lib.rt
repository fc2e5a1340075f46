// Tests of the codebooks at their edges.
#![tactic(auto)]

mod streams;
mod text;
mod written;

pub use text::BitText;
pub use written::WrittenText;

#[cfg(test)]
mod tests {
    use super::{BitText, WrittenText};
    use backends::fault::ReadFault;
    use bit_streams::decode::{SymbolsError, decode_iid_symbols};
    use bit_streams::encode::{
        encode_iid_symbols, encode_iid_symbols_reverse, encode_symbols, encode_symbols_reverse,
    };
    use codebooks::book::{DecoderCodebook, EncoderCodebook};
    use codebooks::default::{encode_prefix_by_suffix, encode_suffix_by_prefix};
    use codebooks::fault::{CoderError, DecodeError, SymbolCodeError};
    use exp_golomb::ExpGolomb;
    use std::process::Abort;
    use std::test::Fail;
    use words::fault::BoundedWriteError;
    use words::{PartialWord, Word};

    // What decoding came to, at any width.
    type Answer = Result<u64, DecodeError>;

    // Bits, the answer that they give, and how many of them are taken.
    #[derive(Clone, Copy)]
    struct Case {
        bits: &'static [u8],
        answer: Answer,
        taken: usize,
    }

    fn decoded<N: Word>(source: &mut BitText) -> Answer {
        let symbol = ExpGolomb::<N>::new().decode_symbol(source)?;
        Ok(symbol.to_u64())
    }

    // How many of these bits were taken from their source.
    fn taken(bits: &[u8], source: &BitText) -> usize {
        bits.len().saturating_sub(source.rest().len())
    }

    fn reads<N: Word>(rt: &impl Abort, cases: &[Case]) {
        for case in cases {
            let mut source = BitText::new(case.bits);
            assert_eq!(rt; decoded::<N>(&mut source), case.answer);
            assert_eq!(rt; taken(case.bits, &source), case.taken);
        }
    }

    // Bits after which there is no number: refusal 4, with so many taken.
    fn garbled(bits: &'static [u8], taken: usize) -> Case {
        Case {
            bits,
            answer: Err(CoderError::Frontend(SymbolCodeError::InvalidCodeword)),
            taken,
        }
    }

    fn number(bits: &'static [u8], number: u64, taken: usize) -> Case {
        Case {
            bits,
            answer: Ok(number),
            taken,
        }
    }

    fn fault(bits: &'static [u8], place: u64, taken: usize) -> Case {
        Case {
            bits,
            answer: Err(CoderError::Backend(ReadFault { place })),
            taken,
        }
    }

    // Writes a number as text, in both directions, and says how many bits it has; none where it was refused.
    fn written<N: Word>(symbol: N, text: &mut [u8], back: &mut [u8]) -> Option<usize> {
        let book = ExpGolomb::<N>::new();
        let mut forth = WrittenText::new(text);
        let first = book.encode_symbol_prefix(symbol, &mut forth);
        let mut turned = WrittenText::new(back);
        let last = book.encode_symbol_suffix(symbol, &mut turned);
        if first.is_ok() && last.is_ok() && forth.taken() == turned.taken() {
            Some(forth.taken())
        } else {
            None
        }
    }

    // ITU-T H.264, table 9-2: the first ten codewords.
    #[test]
    fn the_first_codewords_are_those_of_the_clause(rt: HostRuntime) {
        let cases = [
            number(b"1", 0, 1),
            number(b"010", 1, 3),
            number(b"011", 2, 3),
            number(b"00100", 3, 5),
            number(b"00101", 4, 5),
            number(b"00110", 5, 5),
            number(b"00111", 6, 5),
            number(b"0001000", 7, 7),
            number(b"0001001", 8, 7),
            number(b"0001010", 9, 7),
        ];
        reads::<u8>(&rt, &cases);
        reads::<u32>(&rt, &cases);
        reads::<u64>(&rt, &cases);
        for (n, case) in cases.iter().enumerate() {
            let mut text = [0u8; 7];
            let mut back = [0u8; 7];
            let len = written(n as u32, &mut text, &mut back);
            assert_eq!(rt; len, Some(case.taken));
            assert!(rt; text.starts_with(case.bits));
        }
    }

    // Table 9-1: so many zeros, a one, and as many bits again, for the numbers of a range.
    #[test]
    fn the_ranges_are_those_of_the_clause(rt: HostRuntime) {
        for (zeros, first) in [(0usize, 0u8), (1, 1), (2, 3), (3, 7), (4, 15), (5, 31)] {
            for n in first..=first.saturating_mul(2) {
                let mut text = [b'-'; 16];
                let mut back = [b'-'; 16];
                assert_eq!(rt; written(n, &mut text, &mut back), Some(2 * zeros + 1));
                let mut value: u64 = 0;
                for (i, digit) in text.iter().enumerate() {
                    if i < zeros {
                        assert_eq!(rt; *digit, b'0');
                    } else if i == zeros {
                        assert_eq!(rt; *digit, b'1');
                    } else if i <= 2 * zeros {
                        value = value
                            .saturating_mul(2)
                            .saturating_add(u64::from(*digit == b'1'));
                    } else {
                        assert_eq!(rt; *digit, b'-');
                    }
                }
                assert_eq!(rt; value, u64::from(n).saturating_sub(u64::from(first)));
                let mut source = BitText::new(&text);
                assert_eq!(rt; decoded::<u8>(&mut source), Ok(u64::from(n)));
            }
        }
    }

    // The largest numbers of each width, and one less.
    #[test]
    fn the_largest_numbers_are_written_and_read(rt: HostRuntime) {
        let mut text = [0u8; 17];
        let mut back = [0u8; 17];
        assert_eq!(rt; written(255u8, &mut text, &mut back), Some(17));
        assert_eq!(rt; text, *b"00000000100000000");
        assert_eq!(rt; back, *b"00000000100000000");
        let mut source = BitText::new(&text);
        assert_eq!(rt; decoded::<u8>(&mut source), Ok(255));
        let mut text = [0u8; 65];
        let mut back = [0u8; 65];
        assert_eq!(rt; written(0xffff_ffffu32, &mut text, &mut back), Some(65));
        assert_eq!(rt; text, back);
        let mut source = BitText::new(&text);
        assert_eq!(rt; decoded::<u32>(&mut source), Ok(0xffff_ffff));
        let mut text = [0u8; 129];
        let mut back = [0u8; 129];
        assert_eq!(rt; written(u64::MAX, &mut text, &mut back), Some(129));
        assert_eq!(rt; text, back);
        let mut source = BitText::new(&text);
        assert_eq!(rt; decoded::<u64>(&mut source), Ok(u64::MAX));
        let mut text = [0u8; 127];
        let mut back = [0u8; 127];
        assert_eq!(rt; written(u64::MAX - 1, &mut text, &mut back), Some(127));
        let mut source = BitText::new(&text);
        assert_eq!(rt; decoded::<u64>(&mut source), Ok(u64::MAX - 1));
    }

    // All 256 numbers of 8 bits: the suffix is the prefix turned round, and both have the length of the clause.
    #[test]
    fn all_numbers_of_eight_bits_come_back(rt: HostRuntime) -> Result<(), Fail> {
        for n in 0..=255u8 {
            let mut text = [b'-'; 17];
            let mut back = [b'-'; 17];
            let Some(len) = written(n, &mut text, &mut back) else {
                return Err(Fail::new("refused"));
            };
            assert!(rt; len <= 17);
            for (x, y) in text.iter().take(len).zip(back.iter().take(len).rev()) {
                assert_eq!(rt; *x, *y);
            }
            let mut source = BitText::new(&text);
            assert_eq!(rt; decoded::<u8>(&mut source), Ok(u64::from(n)));
            assert_eq!(rt; taken(&text, &source), len);
        }
        Ok(())
    }

    // Runs of zeros around the width, the end in every place, and a fault.
    #[test]
    fn what_is_no_codeword_is_refused(rt: HostRuntime) {
        reads::<u8>(
            &rt,
            &[
                number(b"000000011111111x", 254, 15),
                number(b"00000000100000000x", 255, 17),
                garbled(b"000000001100000001", 17),
                garbled(b"000000001000000011", 17),
                garbled(b"000000000111", 10),
                garbled(b"00000000000001x", 14),
                garbled(b"000101", 6),
                garbled(b"0001", 4),
                garbled(b"0000000000000", 13),
                garbled(b"", 0),
                fault(b"00x1", 120, 2),
                fault(b"0001x", 120, 4),
                fault(b"x", 120, 0),
                number(b"00000000100000000", 255, 17),
            ],
        );
        reads::<u32>(
            &rt,
            &[
                garbled(b"0000000000000000000000000000000001", 34),
                garbled(
                    b"00000000000000000000000000000000100000000000000000000000000000001",
                    65,
                ),
                number(
                    b"00000000000000000000000000000000100000000000000000000000000000000",
                    0xffff_ffff,
                    65,
                ),
                number(
                    b"0000000000000000000000000000000111111111111111111111111111111111",
                    0xffff_fffe,
                    63,
                ),
            ],
        );
        reads::<u64>(
            &rt,
            &[
                garbled(
                    b"000000000000000000000000000000000000000000000000000000000000000001",
                    66,
                ),
                garbled(
                    b"00000000000000000000000000000000000000000000000000000000000000001",
                    65,
                ),
            ],
        );
    }

    // A sink that is too short keeps the bits that fit, in either direction.
    #[test]
    fn a_short_sink_keeps_what_fits(rt: HostRuntime) {
        let book = ExpGolomb::<u8>::new();
        let mut text = [b'-'; 5];
        let mut sink = WrittenText::new(&mut text);
        assert!(rt; book.encode_symbol_prefix(9, &mut sink).is_err());
        assert_eq!(rt; sink.taken(), 5);
        assert_eq!(rt; text, *b"00010");
        let mut text = [b'-'; 5];
        let mut sink = WrittenText::new(&mut text);
        assert!(rt; book.encode_symbol_suffix(9, &mut sink).is_err());
        assert_eq!(rt; sink.taken(), 5);
        assert_eq!(rt; text, *b"01010");
        let mut text = [b'-'; 7];
        let mut sink = WrittenText::new(&mut text);
        assert!(rt; book.encode_symbol_suffix(9, &mut sink).is_ok());
        assert_eq!(rt; text, *b"0101000");
    }

    // Each direction by way of the other, over a sink with room and over one that is too short.
    #[test]
    fn one_direction_is_made_of_the_other(rt: HostRuntime) {
        let book = ExpGolomb::<u8>::new();
        let mut text = [b'-'; 7];
        assert!(rt; encode_prefix_by_suffix(&book, 9, &mut WrittenText::new(&mut text)).is_ok());
        assert_eq!(rt; text, *b"0001010");
        let mut text = [b'-'; 7];
        assert!(rt; encode_suffix_by_prefix(&book, 9, &mut WrittenText::new(&mut text)).is_ok());
        assert_eq!(rt; text, *b"0101000");
        let mut text = [b'-'; 5];
        let full = CoderError::Backend(BoundedWriteError::OutOfSpace);
        let sent = encode_suffix_by_prefix(&book, 9, &mut WrittenText::new(&mut text));
        assert_eq!(rt; sent, Err(full));
        assert_eq!(rt; text, *b"01010");
    }

    // Symbols one after the other: 0 is 1, 7 is 0001000 and 1 is 010. The first that does not fit ends it, and what fits of it stays.
    #[test]
    fn several_symbols_are_written(rt: HostRuntime) {
        let book = ExpGolomb::<u8>::new();
        let pairs = [(0, book), (7, book), (1, book)];
        let mut text = [b'-'; 12];
        let mut sink = WrittenText::new(&mut text);
        assert!(rt; encode_symbols(&mut sink, &pairs).is_ok());
        assert_eq!(rt; sink.taken(), 11);
        assert_eq!(rt; text, *b"10001000010-");
        let mut text = [b'-'; 11];
        assert!(rt; encode_symbols_reverse(&mut WrittenText::new(&mut text), &pairs).is_ok());
        assert_eq!(rt; text, *b"01000010001");
        let mut text = [b'-'; 11];
        assert!(rt;
            encode_iid_symbols(&mut WrittenText::new(&mut text), &[0, 7, 1], &book).is_ok()
        );
        assert_eq!(rt; text, *b"10001000010");
        let mut text = [b'-'; 11];
        let sent = encode_iid_symbols_reverse(&mut WrittenText::new(&mut text), &[0, 7, 1], &book);
        assert!(rt; sent.is_ok());
        assert_eq!(rt; text, *b"01000010001");
        let mut text = [b'-'; 5];
        let full = CoderError::Backend(BoundedWriteError::OutOfSpace);
        let sent = encode_iid_symbols(&mut WrittenText::new(&mut text), &[0, 7, 1], &book);
        assert_eq!(rt; sent, Err(full));
        assert_eq!(rt; text, *b"10001");
    }

    // And read: the slots of symbols that are not read stay as they are.
    #[test]
    fn several_symbols_are_read(rt: HostRuntime) {
        let book = ExpGolomb::<u8>::new();
        let mut symbols: [u8; 3] = [9, 9, 9];
        let read = decode_iid_symbols(&mut BitText::new(b"10001000010"), &book, &mut symbols);
        assert!(rt; read.is_ok());
        assert_eq!(rt; symbols, [0, 7, 1]);
        let mut symbols: [u8; 3] = [9, 9, 9];
        let bits = b"100010";
        let mut source = BitText::new(bits);
        let read = decode_iid_symbols(&mut source, &book, &mut symbols);
        let error = CoderError::Frontend(SymbolCodeError::InvalidCodeword);
        assert_eq!(rt; read, Err(SymbolsError { read: 1, error }));
        assert_eq!(rt; taken(bits, &source), 6);
        assert_eq!(rt; symbols, [0, 9, 9]);
    }
}
