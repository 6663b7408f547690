//! Tokens of leases.
ghost use Rattle.std.specs.Prelude.{◌≡◌, ◌<◌, ◌^◌, Some, decimal, IfSome, IfOk, string_bytes};

use crate::decimal::read_decimal;
use crate::memory::NoMemory;
use std::alloc::Global;

/// The token of a lease. Tokens are ordered by epoch, and then by number.
#[derive(Clone, Copy, Debug, PartialEq, Eq, PartialOrd, Ord)]
pub struct Token {
    /// The epoch of the gateway that granted the lease.
    pub epoch: u64,
    /// The lease's number in that epoch.
    pub number: u64,
}

impl Token {
    ghost use Rattle.cv_base.specs.Token.{token_text};

    /// The token that a text is: the decimals of its epoch and number, and `-` between them. None for
    /// any other text. It takes no memory.
    pub fn read(text: &str) -> Option<Token>
        ensures value { IfSome result (λ token. text.now ≡ token_text token) }
        ensures found { (token : _) → token.epoch < 2 ^ 64 → token.number < 2 ^ 64 → text.now ≡ token_text token → result ≡ Some token }
    {
        match text.split_once('-') {
            Some((epoch, number)) => Token::of_decimals(epoch.as_bytes(), number.as_bytes()),
            None => None,
        }
    }

    /// The token of this epoch and number.
    fn of_decimals(epoch: &[u8], number: &[u8]) -> Option<Token>
        ensures value { IfSome result (λ token. (epoch.now ≡ decimal token.epoch) × (number.now ≡ decimal token.number)) }
        ensures found { (token : _) → token.epoch < 2 ^ 64 → token.number < 2 ^ 64 → epoch.now ≡ decimal token.epoch → number.now ≡ decimal token.number → result ≡ Some token }
    {
        let epoch = read_decimal(epoch)?;
        let number = read_decimal(number)?;
        Some(Token { epoch, number })
    }

    /// The text of a token.
    pub fn text(&self, alloc: Global) -> Result<String, NoMemory>
        ensures { IfOk result (λ text. string_bytes text ≡ token_text self.now) }
    {
        let epoch = self.epoch;
        let number = self.number;
        Ok(format!(in alloc; "{epoch}-{number}")?)
    }
}
