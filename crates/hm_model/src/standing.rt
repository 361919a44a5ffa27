/// How a server that came up stands.
#[derive(Clone, Copy, Debug, Drop, PartialEq, Eq)]
pub struct Standing {
    /// It didn't go down since it came up.
    pub live: bool,
    /// It is known to serve nothing any more.
    pub fenced: bool,
}
