//! The slots of a worker's labels.
ghost use Rattle.std.specs.Prelude.{◌≡◌, ◌++◌, [], ◌∷◌, ℕ, List, IfOk, OnOk, length};
ghost use Rattle.zp_trace.specs.declared.line.Call.{Call};
ghost use Rattle.zp_office.specs.Scripts.{slot_of};
ghost use Rattle.zp_office.specs.Slots.{AreSlotsOf};

use std::alloc::{AllocError, Global};
use std::collections::BTreeMap;
use std::marker::Model;
use zp_model::Name;
use zp_trace::{Call, label_key};

/// The calls of a worker, and the slot of each label that they bind.
#[derive(Drop)]
pub struct LabelSlots<'a> {
    calls: &'a [Call],
    /// By the numbers of the labels.
    slots: BTreeMap<u64, usize>,
}

impl<'a> Model for LabelSlots<'a> {
    ghost use Rattle.std.specs.Prelude.{List};
    ghost use Rattle.zp_trace.specs.declared.line.Call.{Call};

    ghost Value = { List Call };

    ghost use Rattle.zp_office.specs.Slots.{AreSlotsOf};

    ghost view = { λ s. s.calls.now };

    ghost invariant = { λ s. AreSlotsOf s.calls.now s.slots };
}

/// Notes the slot of the label that a call binds, unless a call before it binds the label too.
fn note(slots: &mut BTreeMap<u64, usize>, call: &Call, slot: usize) -> Result<(), AllocError>
    ensures { OnOk result ((calls : List Call) → slot ≡ length calls → AreSlotsOf calls slots.old → AreSlotsOf (calls ++ call.now ∷ []) slots.new) }
{
    if let Some(label) = call.bound_label() {
        let key = label_key(label);
        if !slots.contains_key(&key) {
            slots.insert(key, slot)?;
        }
    }
    Ok(())
}

impl<'a> LabelSlots<'a> {
    /// The slots of the labels that these calls bind.
    pub fn of(alloc: Global, calls: &'a [Call]) -> Result<LabelSlots<'a>, AllocError>
        ensures { IfOk result (λ s. s ≡ calls.now) }
    {
        let mut slots = BTreeMap::new(alloc);
        for (slot, call) in calls.iter().enumerate() {
            note(&mut slots, call, slot)?;
        }
        Ok(LabelSlots { calls, slots })
    }

    /// The slot of a label: the place of the first of the calls that binds it; how many they are, where none does.
    pub fn slot_of(&self, label: Name) -> usize
        ensures { result ≡ slot_of self.now label }
    {
        match self.slots.get(&label_key(label)) {
            Some(slot) => *slot,
            None => self.calls.len(),
        }
    }
}
