// The two maps of a capsule.

/// The maps of a capsule: the pages that are erased, and those of them that it brings.
#[derive(Clone, Copy, Debug, PartialEq, Eq)]
pub enum PageMap {
    Erase,
    Copy,
}
