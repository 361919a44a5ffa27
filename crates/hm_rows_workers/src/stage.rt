/// How far a task is.
#[derive(Clone, Copy, PartialEq, Eq)]
pub enum Stage {
    /// Nobody took it.
    Waits,
    /// It was taken.
    Out,
    /// Its answer is recorded.
    Done,
}
