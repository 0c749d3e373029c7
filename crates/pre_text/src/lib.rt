//! Texts of lines: their lines and words are read, and words are written.
#![tactic(auto)]

mod cutting;
mod laws;
mod values;
mod writing;

pub use cutting::{Line, LineWords, Lines};
pub use laws::{
    lines_read_back, names_are_words, numbers_read_back, one_reading, pairs_read_back, parts_join,
};
pub use values::{hex_pairs, name, number, starts_comment};
pub use writing::{Word, put_hex, put_line, put_number, put_word};

#[cfg(test)]
mod tests {
    use super::*;
    use pre_base::{MemorySink, Sink};
    use std::test::Fail;

    #[test]
    fn reads_lines(rt: HostRuntime) -> Result<(), Fail> {
        let mut lines = Lines::of(b"send 7\r\n\n  a\tb\r");
        let first = lines.next_line().ok_or("first")?;
        assert_eq!(rt; first.number, 1);
        assert_eq!(rt; first.octets, b"send 7".as_slice());
        let second = lines.next_line().ok_or("second")?;
        assert_eq!(rt; second.octets, b"".as_slice());
        let third = lines.next_line().ok_or("third")?;
        assert_eq!(rt; third.number, 3);
        let mut words = LineWords::of(third.octets);
        assert_eq!(rt; words.next_word().ok_or("word")?, b"a\tb".as_slice());
        assert!(rt; words.next_word().is_none());
        assert!(rt; lines.next_line().is_none());
        Ok(())
    }

    #[test]
    fn reads_words(rt: HostRuntime) -> Result<(), Fail> {
        assert_eq!(rt; number(b"18446744073709551615"), Some(18446744073709551615));
        assert_eq!(rt; number(b"18446744073709551616"), None);
        assert_eq!(rt; number(b"0"), Some(0));
        assert_eq!(rt; number(b"07"), None);
        assert!(rt; name(b"a-b_c.9"));
        assert!(rt; starts_comment(b"#x"));
        assert!(rt; !starts_comment(b"x#"));
        assert!(rt; !name(b"a>b"));
        let mut into = [7u8; 4];
        assert_eq!(rt; hex_pairs(b"0aFf", &mut into), Some(2));
        assert_eq!(rt; into.as_slice(), [10, 255, 7, 7].as_slice());
        Ok(())
    }

    #[test]
    fn writes_lines(rt: HostRuntime) -> Result<(), Fail> {
        let mut sink = MemorySink::make(rt.alloc(), 64, 64, &[])?;
        let words = [Word::Ends(b"a", b"b"), Word::Check([0, 10, 255, 16])];
        assert!(rt; put_line(&mut sink, &Word::Number(12), &words).is_ok());
        assert!(rt; put_number(&mut sink, 0).is_ok());
        assert_eq!(rt; sink.octets(), b"12 a>b 000aff10\n0".as_slice());
        Ok(())
    }
}
