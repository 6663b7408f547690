//! Where a head may end: at an empty line.
ghost use Rattle.std.specs.Prelude.{◌≡◌};
ghost use Rattle.cv_http.specs.HeadEndsInner.{closes, after, has_empty_line};
ghost use Rattle.cv_http.specs.declared.head_end.Line.TheVariants.{Text};

/// What stands of a line.
#[derive(Clone, Copy)]
pub(crate) enum Line {
    /// Nothing: the line before has ended.
    Empty,
    /// A carriage return alone.
    Returned,
    /// Anything else.
    Text,
}

impl Line {
    /// Whether the line is empty and ends with this byte.
    fn closes(self, byte: u8) -> bool
        ensures { result ≡ closes self byte }
    {
        match self {
            Line::Empty | Line::Returned => byte == b'\n',
            Line::Text => false,
        }
    }

    /// What stands of the line with this byte, or of the next.
    fn after(self, byte: u8) -> Line
        ensures { result ≡ after self byte }
    {
        match (self, byte) {
            (_, b'\n') => Line::Empty,
            (Line::Empty, b'\r') => Line::Returned,
            _ => Line::Text,
        }
    }
}

/// Whether a line that ends in the bytes is empty. What stands before them counts for a text.
pub(crate) fn has_empty_line(bytes: &[u8]) -> bool
    ensures { result ≡ has_empty_line Text bytes.now }
{
    let mut line = Line::Text;
    for byte in bytes {
        if line.closes(*byte) {
            return true;
        }
        line = line.after(*byte);
    }
    false
}
