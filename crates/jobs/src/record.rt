use calls::{Answer, Call, Refusal};
use steps::Cuts;

// The plan of an open job, as it is shown: plain values, which anybody may make.
#[derive(Drop)]
pub struct Moment<K> {
    pub end: u32,
    pub cuts: Cuts,
    pub total: K,
}

// A call, its answer, and the job right after it, which shows nothing while it is shut.
#[derive(Drop)]
pub struct Record<K> {
    pub call: Call,
    pub answer: Result<Answer<K>, Refusal>,
    pub moment: Option<Moment<K>>,
}
