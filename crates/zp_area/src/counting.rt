//! Pageblocks that are counted, for readings.
ghost use Rattle.std.specs.Prelude.{◌≡◌, ◌≤◌, length};
ghost use Rattle.zp_model.specs.declared.constants.TheConstants.{MAX_PAGES};
ghost use Rattle.zp_model.specs.Info.{pageblocks_of_type};

use zp_model::PageblockType;

/// How many of these pageblocks have a type.
pub fn pageblocks_of_type(kinds: &[PageblockType], kind: PageblockType) -> u32
    requires { length kinds.now ≤ MAX_PAGES }
    ensures { result ≡ pageblocks_of_type kinds.now kind }
{
    let mut pageblocks = 0;
    'pageblocks: for other in kinds {
        if other.number() == kind.number() {
            pageblocks += 1;
        }
    }
    pageblocks
}
