//! The fields of a manifest.
ghost use Rattle.std.specs.Prelude.{◌≡◌};
ghost use Rattle.cv_manifest.specs.Field.{letter_of};
ghost use Rattle.cv_manifest.specs.FieldInner.{field_of};

/// A field of a manifest. Each is a line that begins with the field's letter.
#[derive(Clone, Copy, Debug, PartialEq, Eq)]
pub enum Field {
    Root,
    Size,
    RootKey,
    TimeToLive,
    Revision,
    Name,
    History,
    Time,
}

impl Field {
    /// The field's letter.
    pub fn letter(self) -> u8
        ensures { result ≡ letter_of self }
    {
        match self {
            Field::Root => b'C',
            Field::Size => b'B',
            Field::RootKey => b'R',
            Field::TimeToLive => b'D',
            Field::Revision => b'S',
            Field::Name => b'N',
            Field::History => b'H',
            Field::Time => b'T',
        }
    }

    /// The field with this letter.
    pub fn of_letter(letter: u8) -> Option<Field>
        ensures { result ≡ field_of letter }
    {
        match letter {
            b'C' => Some(Field::Root),
            b'B' => Some(Field::Size),
            b'R' => Some(Field::RootKey),
            b'D' => Some(Field::TimeToLive),
            b'S' => Some(Field::Revision),
            b'N' => Some(Field::Name),
            b'H' => Some(Field::History),
            b'T' => Some(Field::Time),
            _ => None,
        }
    }
}
