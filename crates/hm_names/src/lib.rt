//! Names of namespaces, tables, regions, servers and rows, their texts, and the list that all layers use.
#![tactic(auto)]

mod bytes;
mod copied;
mod cut;
mod decimal;
mod escape;
mod fault;
mod hints;
mod host;
pub mod laws;
mod list;
mod nonce;
mod ns;
mod part;
mod pid;
mod qualifier;
mod range;
mod region;
mod row_key;
mod same;
mod server;
mod table;

pub use copied::Copied;
pub use decimal::parse_decimal;
pub use fault::NameFault;
pub use hints::front_hint;
pub use host::Host;
pub use list::List;
pub use nonce::Nonce;
pub use ns::Ns;
pub use pid::Pid;
pub use qualifier::Qualifier;
pub use range::KeyRange;
pub use region::RegionName;
pub use row_key::RowKey;
pub use same::Same;
pub use server::ServerName;
pub use table::TableName;
