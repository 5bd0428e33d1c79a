// What a look shows of an open job.
#[derive(Clone, Copy)]
pub struct View<K> {
    pub end: u32,
    // the number of cuts
    pub count: u32,
    pub total: K,
    // the cut asked for, where there is one
    pub cut: Option<u32>,
}

// What a job answers to a call that it does not refuse.
#[derive(Clone, Copy)]
pub enum Answer<K> {
    // an opening gives no count
    Accepted,
    // the number of costs that were read
    Counted(u64),
    // nothing is seen of a shut job
    Looked(Option<View<K>>),
}
