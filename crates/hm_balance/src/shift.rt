use hm_names::ServerName;

/// One region goes from a server to another.
#[derive(Debug, Drop, PartialEq, Eq)]
pub struct Shift {
    pub from: ServerName,
    pub to: ServerName,
}
