ghost use Rattle.std.specs.Prelude.{◌≡◌, ℕ, ◌-◌, ◌^◌, ◌≤◌, ◌<◌, List, length, min, IfSome, All};
ghost use Rattle.std.specs.List.{flat_map};
ghost use Rattle.hm_names.specs.Keys.{IsByteString};
ghost use Rattle.hm_names.specs.Names.{IsNs};
ghost use Rattle.hm_names.specs.Nonces.{IsNonce};
ghost use Rattle.hm_names.specs.Regions.{IsRegion};
ghost use Rattle.hm_names.specs.Servers.{IsServer};
ghost use Rattle.hm_names.specs.Tables.{IsTable};
ghost use Rattle.hm_entry.specs.Fits.{AllFit, KeyFits, IsByte, IsNumber, PidFits, RangeFits};
ghost use Rattle.hm_entry.specs.Sizes.{number_some, text_some, region_some};
ghost use Rattle.hm_entry.specs.Spelling.{table as table_text, region as region_text, server as server_text, option as option_text, list as list_text, nonce as nonce_text, range as range_text, pid as pid_text, flag, byte, number};
ghost use Rattle.hm_wire.specs.Room.{HasRoom, Puts};
ghost use Rattle.hm_wire.specs.Wire.{text};

use hm_names::{KeyRange, List, Nonce, Ns, Pid, RegionName, RowKey, ServerName, TableName};
use hm_wire::{put_byte, put_text, put_u16, put_u64};

// A value with a spelling.
pub(crate) trait Put: Sized {
    ghost spell: { Self → List ℕ };

    ghost fits: { Self → Type 0 };

    // Not each value of the type has a spelling.
    ghost spelled: { Self → Type 0 };

    // How long the spelling is.
    fn length(&self) -> u64
        ensures { result ≡ min (length (spell self.now)) (2 ^ 64 - 1) };

    // Appends the spelling.
    fn put(&self, out: &mut Vec<u8>)
        requires spelled { spelled self.now }
        requires short { length (spell self.now) ≤ 65536 }
        requires room { HasRoom out.old (length (spell self.now)) }
        ensures put { Puts out.old (spell self.now) out.new }
        ensures fits { fits self.now };
}

// A value that lists have.
pub(crate) trait Item: Put {
    ghost not_empty: { (x : Self) → Self.spelled x → 1 ≤ length (Self.spell x) };
}

fn text_length(bytes: &[u8]) -> u64
    ensures { result ≡ min (length (text bytes.now)) (2 ^ 64 - 1) }
{
    (bytes.len() as u64).saturating_add(2)
}

impl Put for u8 {
    ghost spell = { byte };

    ghost fits = { IsByte };

    ghost spelled = { λ _. Unit {0} };

    fn length(&self) -> u64 {
        1
    }

    fn put(&self, out: &mut Vec<u8>) {
        put_byte(out, *self);
    }
}

impl Put for u64 {
    ghost spell = { number };

    ghost fits = { IsNumber };

    ghost spelled = { λ _. Unit {0} };

    fn length(&self) -> u64 {
        8
    }

    fn put(&self, out: &mut Vec<u8>) {
        put_u64(out, *self);
    }
}

impl Put for bool {
    ghost spell = { flag };

    ghost fits = { λ _. Unit {0} };

    ghost spelled = { λ _. Unit {0} };

    fn length(&self) -> u64 {
        1
    }

    fn put(&self, out: &mut Vec<u8>) {
        if *self {
            put_byte(out, 1);
        } else {
            put_byte(out, 0);
        }
    }
}

impl Put for Ns {
    ghost spell = { text };

    ghost fits = { IsNs };

    ghost spelled = { λ _. Unit {0} };

    fn length(&self) -> u64 {
        text_length(self.as_bytes())
    }

    fn put(&self, out: &mut Vec<u8>) {
        put_text(out, self.as_bytes());
    }
}

// Each item of a slice of bytes fits eight bits: a law that does nothing.
fn are_bytes(bytes: &[u8])
    ensures { IsByteString bytes.now }
{}

impl Put for RowKey {
    ghost spell = { text };

    ghost fits = { KeyFits };

    ghost spelled = { λ _. Unit {0} };

    fn length(&self) -> u64 {
        text_length(self.as_bytes())
    }

    fn put(&self, out: &mut Vec<u8>) {
        let bytes = self.as_bytes();
        are_bytes(bytes);
        put_text(out, bytes);
    }
}

impl Put for TableName {
    ghost spell = { table_text };

    ghost fits = { IsTable };

    ghost spelled = { λ _. Unit {0} };

    #[tactic(auto, unfolding(crate::specs::Spelling::table))]
    fn length(&self) -> u64 {
        text_length(self.ns.as_bytes()).saturating_add(text_length(self.qualifier.as_bytes()))
    }

    #[tactic(auto, unfolding(crate::specs::Spelling::table))]
    fn put(&self, out: &mut Vec<u8>) {
        put_text(out, self.ns.as_bytes());
        put_text(out, self.qualifier.as_bytes());
    }
}

impl Put for RegionName {
    ghost spell = { region_text };

    ghost fits = { IsRegion };

    ghost spelled = { λ _. Unit {0} };

    #[tactic(auto, unfolding(crate::specs::Spelling::region))]
    fn length(&self) -> u64 {
        self.table.length().saturating_add(8)
    }

    #[tactic(auto, unfolding(crate::specs::Spelling::region))]
    fn put(&self, out: &mut Vec<u8>) {
        self.table.put(out);
        put_u64(out, self.id);
    }
}

impl Put for ServerName {
    ghost spell = { server_text };

    ghost fits = { IsServer };

    ghost spelled = { λ _. Unit {0} };

    #[tactic(auto, unfolding(crate::specs::Spelling::server))]
    fn length(&self) -> u64 {
        text_length(self.host.as_bytes()).saturating_add(10)
    }

    #[tactic(auto, unfolding(crate::specs::Spelling::server))]
    fn put(&self, out: &mut Vec<u8>) {
        put_text(out, self.host.as_bytes());
        put_u16(out, self.port);
        put_u64(out, self.start);
    }
}

impl Put for KeyRange {
    ghost spell = { range_text };

    ghost fits = { RangeFits };

    ghost spelled = { λ _. Unit {0} };

    #[tactic(auto, unfolding(crate::specs::Spelling::range))]
    fn length(&self) -> u64 {
        self.start.length().saturating_add(self.end.length())
    }

    #[tactic(auto, unfolding(crate::specs::Spelling::range))]
    fn put(&self, out: &mut Vec<u8>) {
        self.start.put(out);
        self.end.put(out);
    }
}

impl Put for Nonce {
    ghost spell = { nonce_text };

    ghost fits = { IsNonce };

    ghost spelled = { λ _. Unit {0} };

    #[tactic(auto, unfolding(crate::specs::Spelling::nonce))]
    fn length(&self) -> u64 {
        16
    }

    #[tactic(auto, unfolding(crate::specs::Spelling::nonce))]
    fn put(&self, out: &mut Vec<u8>) {
        put_u64(out, self.group);
        put_u64(out, self.number);
    }
}

impl Put for Pid {
    ghost spell = { pid_text };

    ghost fits = { PidFits };

    ghost spelled = { λ _. Unit {0} };

    fn length(&self) -> u64 {
        8
    }

    fn put(&self, out: &mut Vec<u8>) {
        put_u64(out, self.0);
    }
}

impl<T: Put> Put for Option<T> {
    ghost spell = { option_text T.spell };

    ghost fits = { λ o. IfSome o T.fits };

    ghost spelled = { λ o. IfSome o T.spelled };

    fn length(&self) -> u64 {
        match self {
            None => 1,
            Some(x) => x.length().saturating_add(1),
        }
    }

    fn put(&self, out: &mut Vec<u8>) {
        match self {
            None => put_byte(out, 0),
            Some(x) => {
                put_byte(out, 1);
                x.put(out);
            }
        }
    }
}

fn items_length<T: Put>(items: &[T]) -> u64
    ensures { result ≡ min (length (flat_map T.spell items.now)) (2 ^ 64 - 1) }
{
    let mut total: u64 = 0;
    for x in items {
        total = total.saturating_add(x.length());
    }
    total
}

// How many items there are: no item's spelling is empty, so the count fits two bytes.
fn count_of<T: Item>(items: &[T]) -> u16
    requires spelled { All T.spelled items.now }
    requires short { length (flat_map T.spell items.now) < 2 ^ 16 }
    ensures count { result ≡ length items.now }
    ensures small { length items.now < 2 ^ 16 }
{
    items.len() as u16
}

fn put_items<T: Put>(items: &[T], out: &mut Vec<u8>)
    requires spelled { All T.spelled items.now }
    requires short { length (flat_map T.spell items.now) ≤ 65536 }
    requires room { HasRoom out.old (length (flat_map T.spell items.now)) }
    ensures put { Puts out.old (flat_map T.spell items.now) out.new }
    ensures fits { All T.fits items.now }
{
    for x in items {
        x.put(out);
    }
}

impl<T: Item> Put for List<T> {
    ghost spell = { list_text T.spell };

    ghost fits = { AllFit T.fits };

    ghost spelled = { All T.spelled };

    fn length(&self) -> u64 {
        items_length(self.as_slice()).saturating_add(2)
    }

    fn put(&self, out: &mut Vec<u8>) {
        let items = self.as_slice();
        put_u16(out, count_of(items));
        put_items(items, out);
    }
}

impl Item for u64 {
    ghost not_empty = { λ x _. number_some x };
}

impl Item for RowKey {
    ghost not_empty = { λ x _. text_some x };
}

impl Item for RegionName {
    ghost not_empty = { λ x _. region_some x };
}
