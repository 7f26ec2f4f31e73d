/// How a journal is written. New journals are of the second version; the first has no holders.
#[derive(Clone, Copy, Debug, PartialEq, Eq)]
pub enum Version {
    /// `GSJ1`.
    One,
    /// `GSJ2`.
    Two,
}
