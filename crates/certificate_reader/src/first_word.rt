//! The words of a line, separated by blanks.
ghost use Rattle.std.specs.Prelude.{◌≡◌};
ghost use Rattle.std.specs.List.{position};
ghost use Rattle.std.specs.Str.{bytes_eq};
ghost use Rattle.certificate_reader.specs.Words.{IsFirstWord, is_blank, text_in};

/// The bytes up to the first blank, and the bytes after it if there is one.
pub(crate) fn first_word(bytes: &[u8]) -> (&[u8], Option<&[u8]>)
    ensures { IsFirstWord bytes.now result.0.now (text_in result.1) }
{
    let Some(end) = first_blank(bytes) else {
        return (bytes, None);
    };
    (&bytes[..end], Some(&bytes[end + 1..]))
}

/// The index of the first blank.
fn first_blank(bytes: &[u8]) -> Option<usize>
    ensures { result ≡ position is_blank bytes.now }
{
    bytes.iter().position(|byte| *byte == b' ')
}

/// Whether the bytes are this word.
pub(crate) fn is(bytes: &[u8], word: &[u8]) -> bool
    ensures { result ≡ bytes_eq bytes.now word.now }
{
    bytes == word
}
