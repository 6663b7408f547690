//! Runs over a vault that is cut.

use crate::outside::{Outside, REPOSITORY, Row};
use crate::running::{end_alone, owned};
use cv_vault::MemoryVault;
use std::alloc::Global;
use std::test::Fail;

/// The words of a run, and the input that it is run on.
#[derive(Drop)]
pub(crate) struct Asked {
    words: Vec<String>,
    input: Vec<u8>,
}

/// How a run ended: the status' code, all that it wrote on the output and then on the status, and the vault.
#[derive(Drop)]
pub(crate) struct Ended {
    pub(crate) code: u8,
    pub(crate) written: Vec<u8>,
    pub(crate) vault: MemoryVault,
}

impl Asked {
    /// A run that does a command on the repository.
    pub(crate) fn new(alloc: Global, command: &str, input: Vec<u8>) -> Result<Asked, Fail> {
        let words = owned(alloc, &[command, REPOSITORY])?;
        Ok(Asked { words, input })
    }

    /// What it has over a vault.
    fn outside(&self, alloc: Global, vault: MemoryVault) -> Result<Outside, Fail> {
        let mut outside = Outside::bare(alloc, Row::Crash)?;
        outside.vault = vault;
        outside.input = Vec::from_slice(alloc, self.input.as_slice())?;
        Ok(outside)
    }

    /// How it ends over a vault.
    pub(crate) fn end_over(&self, alloc: Global, vault: MemoryVault) -> Result<Ended, Fail> {
        let outside = self.outside(alloc, vault)?;
        let end = end_alone(alloc, self.words.as_slice(), outside)?;
        let mut written = end.output;
        written.extend_from_slice(end.errors.as_slice())?;
        Ok(Ended {
            code: end.code,
            written,
            vault: end.vault,
        })
    }
}
