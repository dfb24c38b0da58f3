//! The words of a command line that is one text.
ghost use Rattle.std.specs.Prelude.{IfOk, map, string_bytes};
ghost use Rattle.calls.specs.Words.{AreWordsOf};

use std::alloc::{AllocError, Global};

/// The words of a command line: the program's name, and those of the text, which white space parts.
pub fn words_of(alloc: Global, line: &str) -> Result<Vec<String>, AllocError>
    ensures { IfOk result (λ words. AreWordsOf line.now (map string_bytes words.items)) }
{
    let mut words = Vec::new(alloc);
    words.push(String::from_str(alloc, "qbf")?)?;
    for word in line.split_whitespace() {
        words.push(String::from_str(alloc, word)?)?;
    }
    Ok(words)
}
