//! The law on packing. The function does nothing: its contract is the law.
ghost use Rattle.zp_table.specs.Packed.{UnpackingUndoesPacking, narrow, wide};

/// Unpacking the word of an entry gives the entry back, in both layouts.
pub fn unpacking_undoes_packing()
    ensures narrow { UnpackingUndoesPacking narrow }
    ensures wide { UnpackingUndoesPacking wide }
{}
