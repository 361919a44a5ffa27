ghost use Rattle.hm_entry.specs.Fits.{RowFits, SheetFits, RequestFits, EntryFits, EntryIsSpelled};
ghost use Rattle.hm_entry.specs.Sizes.{row_some, sheet_some};
ghost use Rattle.hm_entry.specs.Spelling.{row as row_text, sheet as sheet_text, request as request_text, entry as entry_text};

use crate::put::{Item, Put};
use crate::put_fields::{
    length_of_one, length_of_three, length_of_two, put_one, put_three, put_two,
};
use hm_data::{Entry, Request, Row, Sheet};
use hm_wire::put_byte;

impl Put for Row {
    ghost spell = { row_text };

    ghost fits = { RowFits };

    ghost spelled = { λ _. Unit {0} };

    #[tactic(auto, unfolding(crate::specs::Spelling::row))]
    fn length(&self) -> u64 {
        4
    }

    #[tactic(auto, unfolding(crate::specs::Spelling::row))]
    fn put(&self, out: &mut Vec<u8>) {
        put_three(
            self.act.number(),
            &self.next,
            &self.after,
            &self.undo.number(),
            out,
        );
    }
}

impl Item for Row {
    ghost not_empty = { λ x _. row_some x };
}

impl Put for Sheet {
    ghost spell = { sheet_text };

    ghost fits = { SheetFits };

    ghost spelled = { λ _. Unit {0} };

    #[tactic(auto, unfolding(crate::specs::Spelling::sheet))]
    fn length(&self) -> u64 {
        self.rows.length().saturating_add(1)
    }

    #[tactic(auto, unfolding(crate::specs::Spelling::sheet))]
    fn put(&self, out: &mut Vec<u8>) {
        put_byte(out, self.kind);
        self.rows.put(out);
    }
}

impl Item for Sheet {
    ghost not_empty = { λ x _. sheet_some x };
}

impl Put for Request {
    ghost spell = { request_text };

    ghost fits = { RequestFits };

    ghost spelled = { λ _. Unit {0} };

    #[tactic(auto, unfolding(crate::specs::Spelling::request))]
    fn length(&self) -> u64 {
        match self {
            Request::CreateNamespace { ns } | Request::DropNamespace { ns } => length_of_one(ns),
            Request::CreateTable { table, keys } => length_of_two(table, keys),
            Request::DeleteTable { table }
            | Request::EnableTable { table }
            | Request::DisableTable { table } => length_of_one(table),
            Request::ModifyTable { table, version } => length_of_two(table, version),
            Request::SplitRegion { region, key } => length_of_two(region, key),
            Request::MergeRegions { regions } => length_of_one(regions),
            Request::Move { region, to } => length_of_two(region, to),
        }
    }

    #[tactic(auto, unfolding(crate::specs::Spelling::request))]
    fn put(&self, out: &mut Vec<u8>) {
        match self {
            Request::CreateNamespace { ns } => put_one(1, ns, out),
            Request::DropNamespace { ns } => put_one(2, ns, out),
            Request::CreateTable { table, keys } => put_two(3, table, keys, out),
            Request::DeleteTable { table } => put_one(4, table, out),
            Request::EnableTable { table } => put_one(5, table, out),
            Request::DisableTable { table } => put_one(6, table, out),
            Request::ModifyTable { table, version } => put_two(7, table, version, out),
            Request::SplitRegion { region, key } => put_two(8, region, key, out),
            Request::MergeRegions { regions } => put_one(9, regions, out),
            Request::Move { region, to } => put_two(10, region, to, out),
        }
    }
}

impl Put for Entry {
    ghost spell = { entry_text };

    ghost fits = { EntryFits };

    ghost spelled = { EntryIsSpelled };

    #[tactic(auto, unfolding(crate::specs::Spelling::entry))]
    fn length(&self) -> u64 {
        match self {
            Entry::Start { sheets } | Entry::Adopt { sheets } => length_of_one(sheets),
            Entry::Submit { nonce, request } => length_of_two(nonce, request),
            Entry::Step { pid, pick, out } => length_of_three(pid, pick, out),
            Entry::Undo { pid, row, out } => length_of_three(pid, row, out),
            Entry::Report { .. } => 10,
            Entry::Up { server } | Entry::Down { server } => length_of_one(server),
            Entry::Abort { .. } => 9,
            Entry::Base { part } => length_of_one(part),
        }
    }

    #[tactic(auto, unfolding(crate::specs::Spelling::entry))]
    fn put(&self, out: &mut Vec<u8>) {
        match self {
            Entry::Start { sheets } => put_one(0, sheets, out),
            Entry::Submit { nonce, request } => put_two(1, nonce, request, out),
            Entry::Step {
                pid,
                pick,
                out: step,
            } => put_three(2, pid, pick, step, out),
            Entry::Undo {
                pid,
                row,
                out: step,
            } => put_three(3, pid, row, step, out),
            Entry::Report { call, told } => put_two(4, call, &told.number(), out),
            Entry::Up { server } => put_one(5, server, out),
            Entry::Down { server } => put_one(6, server, out),
            Entry::Abort { pid } => put_one(7, pid, out),
            Entry::Base { part } => put_one(8, part, out),
            Entry::Adopt { sheets } => put_one(9, sheets, out),
        }
    }
}
