//! Where the header is.
ghost use Rattle.std.specs.Prelude.{◌≡◌};
ghost use Rattle.cv_pack.specs.FieldsInner.{mark_byte, after_mark};

use cv_base::ObjectId;

/// A byte that stands so in every header.
#[derive(Clone, Copy, Debug, PartialEq, Eq)]
pub enum Mark {
    FormatLetter,
    FormatDigit,
    FormatEnd,
    TotalLetter,
    CountLetter,
    FirstDash,
    SecondDash,
    LineLetter,
    LineBlank,
}

/// What comes next in a header. A number has the value of its digits so far.
#[derive(Clone, Copy, Debug, PartialEq, Eq)]
pub enum Field {
    Mark(Mark),
    Total(Option<u32>),
    Count(Option<u32>),
    DashesEnd,
    Hash,
    SizeBlank(ObjectId),
    Size(ObjectId, Option<u32>),
    Whole,
}

impl Mark {
    /// The byte.
    pub fn byte(self) -> u8
        ensures { result ≡ mark_byte self }
    {
        match self {
            Mark::FormatLetter => b'V',
            Mark::FormatDigit => b'2',
            Mark::FormatEnd => b'\n',
            Mark::TotalLetter => b'S',
            Mark::CountLetter => b'N',
            Mark::FirstDash | Mark::SecondDash => b'-',
            Mark::LineLetter => b'C',
            Mark::LineBlank => b' ',
        }
    }

    /// What comes after it.
    pub fn next(self) -> Field
        ensures { result ≡ after_mark self }
    {
        match self {
            Mark::FormatLetter => Field::Mark(Mark::FormatDigit),
            Mark::FormatDigit => Field::Mark(Mark::FormatEnd),
            Mark::FormatEnd => Field::Mark(Mark::TotalLetter),
            Mark::TotalLetter => Field::Total(None),
            Mark::CountLetter => Field::Count(None),
            Mark::FirstDash => Field::Mark(Mark::SecondDash),
            Mark::SecondDash => Field::DashesEnd,
            Mark::LineLetter => Field::Mark(Mark::LineBlank),
            Mark::LineBlank => Field::Hash,
        }
    }
}
