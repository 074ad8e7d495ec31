//! The parts that a text is cut into: each is a byte and the bytes that continue it.
ghost use Rattle.std.specs.Prelude.{◌≡◌, ◌+◌, ◌<◌, ◌≤◌, length, drop};
ghost use Rattle.std.specs.List.{prefix_len};
ghost use Rattle.tokens.specs.Form.{view};
ghost use Rattle.model.specs.Words.{form_of, may_continue};

/// The kind of a part, determined by its first byte.
#[derive(Clone, Copy, Debug, PartialEq, Eq)]
pub enum Form {
    /// A space, a tab, a line feed or a carriage return.
    Blank,
    /// `;` and what follows it on its line.
    Comment,
    /// `(`
    Opening,
    /// `)`
    Closing,
    /// A maximal run of printable bytes other than `(`, `)` and `;`.
    Run,
    /// A byte that is only allowed in comments.
    Stray,
}

impl Form {
    /// The kind of part that begins with this byte.
    pub fn of(byte: u8) -> Form
        ensures { view result ≡ form_of byte }
    {
        match byte {
            b' ' | b'\t' | b'\n' | b'\r' => Form::Blank,
            b';' => Form::Comment,
            b'(' => Form::Opening,
            b')' => Form::Closing,
            b'!'..=b'~' => Form::Run,
            _ => Form::Stray,
        }
    }

    /// Whether the byte continues a lexeme of this kind.
    fn may_continue(self, byte: u8) -> bool
        ensures { result ≡ may_continue (view self) byte }
    {
        match self {
            Form::Comment => byte != b'\n',
            Form::Run => Form::of(byte) == Form::Run,
            _ => false,
        }
    }
}

/// The end of the part that begins at `start`: the offset after its last byte.
pub fn part_end(text: &[u8], start: usize, form: Form) -> usize
    requires { start < length text.now }
    ensures after_start { start < result }
    ensures within { result ≤ length text.now }
    ensures longest { result ≡ start + 1 + prefix_len (may_continue (view form)) (drop (start + 1) text.now) }
{
    let mut end = start + 1;
    while end < text.len() && form.may_continue(text[end]) {
        end += 1;
    }
    end
}
