// A claim whose release met a fault.
use crate::claims::Claim;
use worker_steps::fault::WorkerFault;

// The claim comes back with the fault.
pub struct Unreleased {
    pub claim: Claim,
    pub fault: WorkerFault,
}
