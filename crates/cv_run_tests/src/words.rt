//! Texts cut in two.

/// The first word of a text, and what stands behind it.
pub(crate) fn first_word(text: &str) -> (&str, &str) {
    text.split_once(' ').unwrap_or((text, ""))
}
