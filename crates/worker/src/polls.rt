// What a poll answers, and what its parts hand to one another.
use crate::claims::Claims;
use worker_steps::fault::WorkerFault;

// How many entries a poll claimed, started, let go and left behind, and how many jobs it stopped.
#[derive(Clone, Copy, PartialEq, Eq, Debug, Default)]
pub struct PollCounts {
    pub claimed: u32,
    pub started: u32,
    pub let_go: u32,
    pub left: u32,
    pub stopped: u32,
}

// How a poll ends that meets no fault: there is no record yet, or it is done.
#[derive(Clone, Copy, PartialEq, Eq, Debug)]
pub enum PollEnd {
    NothingYet,
    Done,
}

// What a poll answers; its counts hold after a fault too.
#[derive(Clone, Copy, PartialEq, Eq, Debug)]
pub struct PollAnswer {
    pub end: Result<PollEnd, WorkerFault>,
    pub counts: PollCounts,
}

// One attempt to claim that met no fault: three outcomes, of which none is the others' error or absence.
pub enum ClaimTurn {
    NoneChosen,
    Landed(Claims),
    Conflict,
}

// Claims that landed, and the attempt at which they did.
pub struct LandedClaims {
    pub claims: Claims,
    pub attempt: u32,
}
