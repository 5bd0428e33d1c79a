// What a job can be asked.
#[derive(Clone, Copy, PartialEq, Eq, Debug)]
pub enum Call {
    // open after a look at every cost and every square
    OpenChecked,
    // open on the word of a source that vouches
    OpenVouched,
    // one cut more
    Add,
    // one cut fewer
    Drop,
    // as many cuts at another end
    Reach(u32),
    // the end, the number of cuts, the total, and a cut by its number, counted from 1
    Look(u32),
}
