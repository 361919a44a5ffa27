ghost use Rattle.hm_entry.specs.Fits.{CatKeyFits, CatRowFits, EditFits};
ghost use Rattle.hm_entry.specs.Sizes.{edit_some};
ghost use Rattle.hm_entry.specs.Spelling.{key as key_text, catalog_row, edit as edit_text};

use crate::put::{Item, Put};
use crate::put_fields::{length_of_one, put_one, put_three, put_two};
use hm_data::{CatKey, CatRow, Edit};
use hm_wire::put_byte;

impl Put for CatKey {
    ghost spell = { key_text };

    ghost fits = { CatKeyFits };

    ghost spelled = { λ _. Unit {0} };

    #[tactic(auto, unfolding(crate::specs::Spelling::key))]
    fn length(&self) -> u64 {
        match self {
            CatKey::Ns(ns) => length_of_one(ns),
            CatKey::Table(table) => length_of_one(table),
            CatKey::Region(region) => length_of_one(region),
        }
    }

    #[tactic(auto, unfolding(crate::specs::Spelling::key))]
    fn put(&self, out: &mut Vec<u8>) {
        match self {
            CatKey::Ns(ns) => put_one(0, ns, out),
            CatKey::Table(table) => put_one(1, table, out),
            CatKey::Region(region) => put_one(2, region, out),
        }
    }
}

impl Put for CatRow {
    ghost spell = { catalog_row };

    ghost fits = { CatRowFits };

    ghost spelled = { λ _. Unit {0} };

    #[tactic(auto, unfolding(crate::specs::Spelling::catalog_row))]
    fn length(&self) -> u64 {
        match self {
            CatRow::Ns => 1,
            CatRow::Table { .. } => 10,
            CatRow::Region { range, parents, .. } => range
                .length()
                .saturating_add(parents.length())
                .saturating_add(2),
        }
    }

    #[tactic(auto, unfolding(crate::specs::Spelling::catalog_row))]
    fn put(&self, out: &mut Vec<u8>) {
        match self {
            CatRow::Ns => put_byte(out, 0),
            CatRow::Table { state, version } => put_two(1, &state.number(), version, out),
            CatRow::Region {
                range,
                status,
                parents,
            } => put_three(2, range, &status.number(), parents, out),
        }
    }
}

impl Put for Edit {
    ghost spell = { edit_text };

    ghost fits = { EditFits };

    ghost spelled = { λ _. Unit {0} };

    #[tactic(auto, unfolding(crate::specs::Spelling::edit))]
    fn length(&self) -> u64 {
        self.key
            .length()
            .saturating_add(self.before.length())
            .saturating_add(self.after.length())
    }

    #[tactic(auto, unfolding(crate::specs::Spelling::edit))]
    fn put(&self, out: &mut Vec<u8>) {
        self.key.put(out);
        self.before.put(out);
        self.after.put(out);
    }
}

impl Item for Edit {
    ghost not_empty = { λ x _. edit_some x };
}
