//! What procedures lock.
use hm_names::{Ns, RegionName, ServerName, TableName};

/// What a procedure may lock.
#[derive(Debug, Drop, PartialEq, Eq)]
pub enum Resource {
    Ns(Ns),
    Table(TableName),
    Region(RegionName),
    Server(ServerName),
}

/// A lock that a procedure asks for: exclusive, or shared with others.
#[derive(Debug, Drop, PartialEq, Eq)]
pub struct Ask {
    pub resource: Resource,
    pub exclusive: bool,
}
