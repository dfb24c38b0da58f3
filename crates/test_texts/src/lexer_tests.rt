//! Texts and the words that are read from them.
use crate::build::{desk_with, failing_desk};
use lexer::{Comments, Lexer, Word};
use ports::Desk;
use std::alloc::Global;
use std::test::Fail;

// Writes a number as such, a text in quotes, another word as a star.
fn write_word(word: Word, to: &mut String) -> Result<(), Fail> {
    match word {
        Word::Num(n) => write!(to, "{n}")?,
        Word::Text(text) => {
            to.push('\'')?;
            for byte in text.as_slice() {
                to.push(char::from(*byte))?;
            }
            to.push('\'')?;
        }
        Word::Other => to.push('*')?,
    }
    Ok(())
}

// Writes the next word behind the number of its line, or the line of the end, or the refusal. Whether more may come.
fn write_next<D: Desk>(lexer: &mut Lexer, desk: &mut D, to: &mut String) -> Result<bool, Fail> {
    if lexer.has_failed() {
        return Ok(false);
    }
    match lexer.next(desk) {
        Ok(Some(token)) => {
            write!(to, "{} ", token.line)?;
            write_word(token.word, to)?;
            to.push_str(", ")?;
            Ok(true)
        }
        Ok(None) => {
            write!(to, "{} end", lexer.line())?;
            Ok(false)
        }
        Err(refusal) => {
            write!(to, "{refusal}")?;
            Ok(true)
        }
    }
}

// The same for all words.
fn write_all<D: Desk>(lexer: &mut Lexer, desk: &mut D, to: &mut String) -> Result<(), Fail> {
    for _ in 0..40 {
        if !write_next(lexer, desk, to)? {
            break;
        }
    }
    Ok(())
}

// Each word behind the number of its line, then the line of the end, or the refusal.
fn read<D: Desk>(alloc: Global, comments: Comments, desk: &mut D) -> Result<String, Fail> {
    let mut lexer = Lexer::new(alloc, comments)?;
    let mut words = String::new(alloc);
    write_all(&mut lexer, desk, &mut words)?;
    Ok(words)
}

// Whether a text with comments as in QDIMACS is read so.
fn is_read(alloc: Global, text: &str, want: &str) -> Result<bool, Fail> {
    let mut desk = desk_with(alloc, text.as_bytes(), 4096)?;
    Ok(read(alloc, Comments::Dimacs, &mut desk)?.as_str() == want)
}

#[test]
fn words_have_their_lines(rt: HostRuntime) -> Result<(), Fail> {
    let alloc = rt.alloc();
    for (text, want) in [
        ("", "1 end"),
        ("p cnf\n\n1", "1 'p', 1 'cnf', 3 1, 3 end"),
        (
            "c x\r\np 1\r\n  c y\n2 c\r\n",
            "2 'p', 2 1, 4 2, 4 'c', 5 end",
        ),
        ("c \x01\u{e9}\n1\n", "2 1, 3 end"),
        (
            "-0 -00 +1 - 007 -7 1x",
            "1 '-0', 1 '-00', 1 '+1', 1 '-', 1 7, 1 -7, 1 '1x', 1 end",
        ),
        (
            "1234567890abcdef 1234567890abcdefg",
            "1 '1234567890abcdef', 1 *, 1 end",
        ),
        (
            "-9223372036854775807 9223372036854775807",
            "1 -9223372036854775807, 1 9223372036854775807, 1 end",
        ),
        (
            "1\n9223372036854775808",
            "1 1, line 2: a number's magnitude is above 2^63 - 1",
        ),
        (
            "1\n\n2\x7f 3",
            "1 1, line 3: a byte of a word is none of 33 to 126",
        ),
    ] {
        assert!(rt; is_read(alloc, text, want)?, "{text:?}");
    }
    Ok(())
}

#[test]
fn only_a_word_c_begins_a_script_comment(rt: HostRuntime) -> Result<(), Fail> {
    let alloc = rt.alloc();
    let mut desk = desk_with(alloc, b"c x\ncx\n5 c 1\n", 2)?;
    let words = read(alloc, Comments::Script, &mut desk)?;
    assert!(rt;
        words.as_str() == "2 'cx', 3 5, 3 'c', 3 1, 4 end",
        "two bytes a read"
    );
    Ok(())
}

#[test]
fn a_failed_read_is_refused(rt: HostRuntime) -> Result<(), Fail> {
    let alloc = rt.alloc();
    let mut desk = failing_desk(alloc, b"12 34", 2, vec![in alloc; 3]?)?;
    let words = read(alloc, Comments::Dimacs, &mut desk)?;
    assert!(rt; words.as_str() == "the text can't be read");
    Ok(())
}

#[test]
fn a_line_of_a_script_is_told_to_end(rt: HostRuntime) -> Result<(), Fail> {
    let mut desk = desk_with(rt.alloc(), b"solve 1 \n2".as_slice(), 4096)?;
    let mut lexer = Lexer::new(rt.alloc(), Comments::Script)?;
    let first = lexer.next(&mut desk)?.ok_or("no word")?;
    assert_eq!(rt; first.line, 1);
    let second = lexer.next_on_line(&mut desk)?.ok_or("no second word")?;
    assert_eq!(rt; second.line, 1);
    let third = lexer.next_on_line(&mut desk)?;
    assert!(rt; third.is_none());
    let fourth = lexer.next(&mut desk)?.ok_or("no third word")?;
    assert_eq!(rt; fourth.line, 2);
    Ok(())
}
