//! Standard input.

use anyhow::bail;
use std::io::Read;

/// The most bytes of a text that is read.
const LONGEST_TEXT: u64 = 16 * 1024 * 1024;

/// Standard input to its end.
pub fn read_input(rt: &(impl Input + AllocGlobal)) -> anyhow::Result<Vec<u8>> {
    let mut bytes = Vec::new(rt.alloc());
    rt.reader().take(LONGEST_TEXT + 1).read_to_end(&mut bytes)?;
    if bytes.len() as u64 > LONGEST_TEXT {
        bail!("standard input has more than {LONGEST_TEXT} bytes");
    }
    Ok(bytes)
}
