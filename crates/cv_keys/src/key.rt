//! A key.

use cv_base::Text;

/// A key of the gateway: what a publisher is known by, and the secret that it signs with.
#[derive(Drop)]
pub struct Key {
    /// The key's id: 1 to 255 visible ASCII characters without space.
    pub id: Text,
    /// The key's secret: 1 to 255 bytes.
    pub secret: Text,
}
