//! What many requests in one passage of the gate come to.
use zp_model::Refused;

/// How many of the requests were granted, one after another from the first on; and the refusal of the next one, where all were not.
#[derive(Clone, Copy, Drop)]
pub struct Granted {
    pub count: usize,
    pub refused: Option<Refused>,
}
