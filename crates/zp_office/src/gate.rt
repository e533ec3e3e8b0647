//! What is called round each command of a worker.

use zp_model::Worker;

/// Is called round each command that `work` carries out. Calls count from 1.
pub trait Gate {
    fn before(&self, worker: Worker, call: u32);

    fn after(&self, worker: Worker, call: u32);
}

/// Does nothing.
#[derive(Clone, Copy, Debug)]
pub struct OpenGate;

impl Gate for OpenGate {
    fn before(&self, _worker: Worker, _call: u32) {}

    fn after(&self, _worker: Worker, _call: u32) {}
}
