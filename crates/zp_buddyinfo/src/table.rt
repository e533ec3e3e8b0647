//! The text of buddyinfo.
ghost use Rattle.std.specs.Prelude.{◌≡◌, ℕ, IfOk, Err};
ghost use Rattle.zp_buddyinfo.specs.declared.table.TableFault.TheVariants as fault;
ghost use Rattle.zp_buddyinfo.specs.Rows.{AreRowsOf, IsBadLine};

use crate::row::{BuddyinfoRow, row_of};
use crate::words::{pieces, words_of};
use std::alloc::{AllocError, Global};

/// Why a text is no buddyinfo.
#[derive(Clone, Copy, PartialEq, Eq, Debug, Drop)]
pub enum TableFault {
    /// The line of this number, the first being 1, is no zone's line.
    BadLine(usize),
    /// There is no memory.
    Memory,
}

impl From<AllocError> for TableFault {
    ghost use Rattle.zp_buddyinfo.specs.declared.table.TableFault.TheVariants.{Memory};

    ghost from_gives = { λ _ e. e ≡ Memory };

    fn from(_e: AllocError) -> TableFault {
        TableFault::Memory
    }
}

/// The rows of a text: of each line with words the row that it gives. A line without words is passed over.
pub fn read_table(alloc: Global, text: &[u8]) -> Result<Vec<BuddyinfoRow<'_>>, TableFault>
    ensures rows { IfOk result (λ rows. AreRowsOf text.now rows.items) }
    ensures bad { (n : ℕ) → result ≡ Err (fault.BadLine n) → IsBadLine text.now n }
{
    let mut rows = Vec::new(alloc);
    for (index, line) in pieces(alloc, text, b'\n')?.iter().enumerate() {
        let words = words_of(alloc, line)?;
        if words.is_empty() {
            continue;
        }
        let Some(row) = row_of(words.as_slice()) else {
            return Err(TableFault::BadLine(index + 1));
        };
        let Ok(()) = rows.push(row) else {
            return Err(TableFault::Memory);
        };
    }
    Ok(rows)
}
