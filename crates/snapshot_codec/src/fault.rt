//! Why bytes are no snapshot.
use thiserror::Error;

/// Why bytes are no snapshot over a program: the first fault from left to right. The rules stand in
/// docs/FORMATS.md, "Snapshots".
#[derive(Clone, Copy, Debug, PartialEq, Eq, Error)]
pub enum SnapFault {
    /// The bytes end inside a part.
    #[error("the bytes end inside a part")]
    Short,
    /// One of the first four bytes, a tag or a built-in function is none that there is.
    #[error("a byte that names nothing")]
    BadTag,
    /// A text is not UTF-8.
    #[error("a text is not UTF-8")]
    BadText,
    /// More than 64 nodes have run; a name does not rise; the key of a dict is no key or stood
    /// before; a tuple nests deeper than 64; the step of a range is 0; there are more objects than
    /// 1,000,000 for each node that has run.
    #[error("a rule of machines is broken")]
    BadRule,
    /// Bytes follow the last object.
    #[error("bytes follow the last object")]
    LeftOver,
    /// A number names no object of its kind; a node that has run is none of the program; the cell of
    /// a function has not run, has no such function, or that has another number of defaults.
    #[error("a number names nothing of its kind")]
    BadReference,
    /// Memory was wanting.
    #[error("no memory")]
    NoMemory,
    /// The number of an object is greater than the count of different ones before it, or an object
    /// begins whose number did not stand before.
    #[error("objects are not numbered as they are met")]
    BadOrder,
}
