//! The tag of a revision.
ghost use Rattle.std.specs.Prelude.{◌≡◌};
ghost use Rattle.std.specs.List.{list_all};
ghost use Rattle.cv_base.specs.Tag.{is_tag_byte};

/// Whether none of the bytes is a control byte, which a tag has none of.
pub fn are_tag_bytes(bytes: &[u8]) -> bool
    ensures { result ≡ list_all is_tag_byte bytes.now }
{
    bytes.iter().all(|byte| *byte >= 0x20)
}
