//! The bits of a state.
ghost use Rattle.std.specs.Prelude.{◌≡◌, ◌<◌, ◌≤◌, ◌+◌, ◌*◌, ◌^◌};
ghost use Rattle.zp_table.specs.Packed.{StateFits, packed_state};
ghost use Rattle.zp_table.specs.declared.layout.TheConstants.{WHICH_BITS, ORDER_AT, TYPE_AT, WORKER_AT, STATE_BITS};
ghost use Rattle.zp_model.specs.MigrateType.{type_number};
ghost use Rattle.zp_model.specs.declared.constants.TheConstants.{LARGEST_ORDER, MAX_WORKERS};

use crate::field::with_field;
use crate::layout::{ORDER_AT, ORDER_BITS, TYPE_AT, TYPE_BITS, WORKER_AT, WORKER_BITS};
use zp_model::{MigrateType, Order, State, Worker};

/// The bits of a state, the parts that it does not have being 0.
pub fn packed_state(state: State) -> u64
    ensures same { result ≡ packed_state state }
    ensures fits { StateFits state }
    ensures within { result < 2 ^ STATE_BITS }
{
    match state {
        State::Tail => 0,
        State::Free(order) => with_field(1, ORDER_AT, ORDER_BITS, order.number() as u64),
        State::Out(order, migrate_type, worker) => packed_block(2, order, migrate_type, worker),
        State::Posted(order, migrate_type, worker) => packed_block(3, order, migrate_type, worker),
    }
}

/// The bits of a block that is out or posted, after those that tell which.
fn packed_block(which: u64, order: Order, migrate_type: MigrateType, worker: Worker) -> u64
    requires { which < 2 ^ WHICH_BITS }
    ensures same { result ≡ which + order * 2 ^ ORDER_AT + type_number migrate_type * 2 ^ TYPE_AT + worker * 2 ^ WORKER_AT }
    ensures order { order ≤ LARGEST_ORDER }
    ensures worker { worker < MAX_WORKERS }
{
    let word = with_field(which, ORDER_AT, ORDER_BITS, order.number() as u64);
    let word = with_field(word, TYPE_AT, TYPE_BITS, migrate_type.number() as u64);
    with_field(word, WORKER_AT, WORKER_BITS, worker.number() as u64)
}
