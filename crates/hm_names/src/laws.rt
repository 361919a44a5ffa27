//! What the texts and the orders of names keep: laws, as functions that do nothing.
ghost use Rattle.std.specs.Prelude.{◌≡◌, ℕ, List, Ok, IsTrue};
ghost use Rattle.std.specs.Cmp.{IsTotalOrder};
ghost use Rattle.hm_names.specs.declared.nonce.Nonce.{Nonce};
ghost use Rattle.hm_names.specs.declared.pid.Pid.{Pid};
ghost use Rattle.hm_names.specs.declared.range.KeyRange.{KeyRange};
ghost use Rattle.hm_names.specs.declared.table.TableName.{TableName};
ghost use Rattle.hm_names.specs.Region.{Region};
ghost use Rattle.hm_names.specs.Server.{Server};
ghost use Rattle.hm_names.specs.Keys.{IsByteString, IsRowKey, key_text, read_key};
ghost use Rattle.hm_names.specs.Nonces.{IsNonce, nonce_text, read_nonce};
ghost use Rattle.hm_names.specs.Order.{bytes_cmp, table_cmp, region_cmp, server_cmp, nonce_cmp, pid_cmp};
ghost use Rattle.hm_names.specs.Ranges.{holds, overlaps};
ghost use Rattle.hm_names.specs.Regions.{IsRegion, region_text, read_region};
ghost use Rattle.hm_names.specs.Servers.{IsServer, server_text, read_server};
ghost use Rattle.hm_names.specs.Tables.{IsTable, table_text, read_table};

use crate::host::Host;
use crate::nonce::Nonce;
use crate::ns::Ns;
use crate::pid::Pid;
use crate::qualifier::Qualifier;
use crate::region::RegionName;
use crate::row_key::RowKey;
use crate::server::ServerName;
use crate::table::TableName;

/// What `Nonce::write` appends is read as the same nonce.
pub fn nonce_reads_back()
    ensures { (v : Nonce) → IsNonce v → read_nonce (nonce_text v) ≡ Ok v }
{}

/// What `TableName::write` appends is read as the same table.
pub fn table_reads_back()
    ensures { (t : TableName) → IsTable t → read_table (table_text t) ≡ Ok t }
{}

/// What `RegionName::write` appends is read as the same region.
pub fn region_reads_back()
    ensures { (r : Region) → IsRegion r → read_region (region_text r) ≡ Ok r }
{}

/// What `ServerName::write` appends is read as the same server.
pub fn server_reads_back()
    ensures { (s : Server) → IsServer s → read_server (server_text s) ≡ Ok s }
{}

/// What `RowKey::write` appends is read as the same key.
pub fn key_reads_back()
    ensures { (key : List ℕ) → IsByteString key → IsRowKey key → read_key (key_text key) ≡ Ok key }
{}

/// Names order by their parts, byte strings by bytes, numbers by value.
pub fn names_order_by_parts()
    ensures bytes { (a b : List ℕ) → ⟦<Ns as Ord>⟧.cmp a b ≡ bytes_cmp a b }
    ensures qualifiers { (a b : List ℕ) → ⟦<Qualifier as Ord>⟧.cmp a b ≡ bytes_cmp a b }
    ensures hosts { (a b : List ℕ) → ⟦<Host as Ord>⟧.cmp a b ≡ bytes_cmp a b }
    ensures keys { (a b : List ℕ) → ⟦<RowKey as Ord>⟧.cmp a b ≡ bytes_cmp a b }
    ensures tables { (a b : TableName) → ⟦<TableName as Ord>⟧.cmp a b ≡ table_cmp a b }
    ensures regions { (a b : Region) → ⟦<RegionName as Ord>⟧.cmp a b ≡ region_cmp a b }
    ensures servers { (a b : Server) → ⟦<ServerName as Ord>⟧.cmp a b ≡ server_cmp a b }
    ensures nonces { (a b : Nonce) → ⟦<Nonce as Ord>⟧.cmp a b ≡ nonce_cmp a b }
    ensures pids { (a b : Pid) → ⟦<Pid as Ord>⟧.cmp a b ≡ pid_cmp a b }
{}

/// Each order is total.
pub fn orders_are_total()
    ensures bytes { IsTotalOrder bytes_cmp }
    ensures tables { IsTotalOrder table_cmp }
    ensures regions { IsTotalOrder region_cmp }
    ensures servers { IsTotalOrder server_cmp }
    ensures nonces { IsTotalOrder nonce_cmp }
    ensures pids { IsTotalOrder pid_cmp }
{}

/// Ranges that overlap, and have a key each, share one.
pub fn overlapping_ranges_share_a_key()
    ensures { (a b : KeyRange) (in_a in_b : List ℕ) → IsTrue (holds a in_a) → IsTrue (holds b in_b) → IsTrue (overlaps a b)
        → (key : List ℕ) × IsTrue (holds a key) × IsTrue (holds b key) }
{}
