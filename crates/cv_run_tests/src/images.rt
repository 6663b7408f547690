//! The files of a vault as a text, its image: a line for each, with its path and the digits of its bytes.

use crate::cut::Cut;
use cv_vault::{MemoryVault, Mortal, Vault};
use std::alloc::Global;
use std::test::Fail;

/// How many calls of a vault are tried until one works.
const FAR: u64 = 100;

/// Adds a file to an image.
pub(crate) fn push_file(
    alloc: Global,
    image: &mut String,
    path: &str,
    bytes: &[u8],
) -> Result<(), Fail> {
    image.push_str(path)?;
    image.push(' ')?;
    image.push_str(hex::encode(alloc, bytes)?.as_str())?;
    image.push('\n')?;
    Ok(())
}

/// The image of a vault.
pub(crate) fn image_of(alloc: Global, vault: &mut MemoryVault) -> Result<String, Fail> {
    let names = vault.list("")?;
    let mut image = String::new(alloc);
    for name in &names {
        let bytes = vault.read(name.as_str())?.ok_or("a name without a file")?;
        push_file(alloc, &mut image, name.as_str(), bytes.as_slice())?;
    }
    Ok(image)
}

/// The image of what a crash leaves of a vault, by its pick.
pub(crate) fn left_by_crash(alloc: Global, vault: MemoryVault, pick: u64) -> Result<String, Fail> {
    let mut vault = vault.crash(pick);
    for _ in 0..FAR {
        if vault.length("").is_ok() {
            break;
        }
    }
    image_of(alloc, &mut vault)
}

/// Writes a file of an image.
fn write_file(alloc: Global, vault: &mut MemoryVault, line: &str) -> Result<(), Fail> {
    let (path, digits) = line.split_once(' ').ok_or("a file without bytes")?;
    vault.write(path, hex::decode(alloc, digits)?.as_slice())?;
    Ok(())
}

/// A vault with the files of an image, for sure. The calls that fail of it are those of a run that is cut so.
pub(crate) fn vault_of(alloc: Global, image: &str, cut: Cut) -> Result<MemoryVault, Fail> {
    let before = image.lines().count() as u64;
    let failing = cut.failing(alloc, before.saturating_add(1))?;
    let mut vault = MemoryVault::new(alloc, failing)?;
    for line in image.lines() {
        write_file(alloc, &mut vault, line)?;
    }
    vault.sync()?;
    Ok(vault)
}
