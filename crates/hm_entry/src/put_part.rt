ghost use Rattle.std.specs.Prelude.{◌≡◌, ◌-◌, ◌^◌, ◌≤◌, length, min};
ghost use Rattle.hm_data.specs.declared.part.Part.TheVariants as part_is;
ghost use Rattle.hm_entry.specs.Fits.{PartFits, RootArgsFit, TableRowFits};
ghost use Rattle.hm_entry.specs.Spelling.{cause_byte, part as part_text, root_args, table_row};
ghost use Rattle.hm_wire.specs.Room.{HasRoom, Puts};

use crate::put::Put;
use crate::put_fields::{length_of_one, length_of_three, put_one, put_three, put_two};
use hm_data::{Args, Cause, Part, Sheet, TableState};
use hm_names::{List, Pid};
use hm_wire::put_byte;

impl Put for (TableState, u64) {
    ghost spell = { table_row };

    ghost fits = { TableRowFits };

    ghost spelled = { λ _. Unit {0} };

    #[tactic(auto, unfolding(crate::specs::Spelling::table_row))]
    fn length(&self) -> u64 {
        9
    }

    #[tactic(auto, unfolding(crate::specs::Spelling::table_row))]
    fn put(&self, out: &mut Vec<u8>) {
        put_byte(out, self.0.number());
        self.1.put(out);
    }
}

impl Put for Cause {
    ghost spell = { cause_byte };

    ghost fits = { λ _. Unit {0} };

    ghost spelled = { λ _. Unit {0} };

    fn length(&self) -> u64 {
        1
    }

    fn put(&self, out: &mut Vec<u8>) {
        put_byte(out, self.number());
    }
}

#[tactic(auto, unfolding(crate::specs::Spelling::root_args))]
fn root_args_length(args: &Args) -> u64
    ensures { result ≡ min (length (root_args args.now)) (2 ^ 64 - 1) }
{
    match args {
        Args::Root { request, .. } => request.length().saturating_add(8),
        Args::Transit { region, to, .. } => region
            .length()
            .saturating_add(to.length())
            .saturating_add(2),
        Args::Crash { .. }
        | Args::AddRegions { .. }
        | Args::DropRegions { .. }
        | Args::AssignCall { .. }
        | Args::CloseCall { .. }
        | Args::FenceCall { .. }
        | Args::LayoutCall { .. }
        | Args::SweepLayout { .. } => args.length(),
    }
}

// What a root of a base did. A request and a transit by themselves have a spelling here.
#[tactic(auto, unfolding(crate::specs::Spelling::root_args))]
fn put_root_args(args: &Args, out: &mut Vec<u8>)
    requires short { length (root_args args.now) ≤ 65536 }
    requires room { HasRoom out.old (length (root_args args.now)) }
    ensures put { Puts out.old (root_args args.now) out.new }
    ensures fits { RootArgsFit args.now }
{
    match args {
        Args::Root { request, first } => {
            request.put(out);
            first.put(out);
        }
        Args::Transit { region, goal, to } => {
            put_three(255, region, &goal.number(), to, out);
        }
        Args::Crash { .. }
        | Args::AddRegions { .. }
        | Args::DropRegions { .. }
        | Args::AssignCall { .. }
        | Args::CloseCall { .. }
        | Args::FenceCall { .. }
        | Args::LayoutCall { .. }
        | Args::SweepLayout { .. } => args.put(out),
    }
}

// Appends a head.
#[tactic(auto, unfolding(crate::specs::Spelling::part))]
fn put_head(entries: &u64, last: &Pid, parts: &u64, sheets: &List<Sheet>, out: &mut Vec<u8>)
    requires short { length (part_text (part_is.Head entries.now last.now parts.now sheets.now)) ≤ 65536 }
    requires room { HasRoom out.old (length (part_text (part_is.Head entries.now last.now parts.now sheets.now))) }
    ensures put { Puts out.old (part_text (part_is.Head entries.now last.now parts.now sheets.now)) out.new }
    ensures fits { PartFits (part_is.Head entries.now last.now parts.now sheets.now) }
{
    put_byte(out, 0);
    entries.put(out);
    last.put(out);
    parts.put(out);
    sheets.put(out);
}

impl Put for Part {
    ghost spell = { part_text };

    ghost fits = { PartFits };

    ghost spelled = { λ _. Unit {0} };

    #[tactic(auto, unfolding(crate::specs::Spelling::part))]
    fn length(&self) -> u64 {
        match self {
            Part::Head { sheets, .. } => sheets.length().saturating_add(25),
            Part::Namespace { ns } => length_of_one(ns),
            Part::Table { table, drawn, row } => length_of_three(table, drawn, row),
            Part::Region {
                region,
                range,
                parents,
                place,
                ..
            } => region
                .length()
                .saturating_add(range.length())
                .saturating_add(parents.length())
                .saturating_add(place.length())
                .saturating_add(2),
            Part::Server { server, .. } => server.length().saturating_add(2),
            Part::Root {
                nonce,
                args,
                cause,
                ..
            } => nonce
                .length()
                .saturating_add(root_args_length(args))
                .saturating_add(cause.length())
                .saturating_add(9),
            Part::Layout { .. } => 9,
        }
    }

    #[tactic(auto, unfolding(crate::specs::Spelling::part))]
    fn put(&self, out: &mut Vec<u8>) {
        match self {
            Part::Head {
                entries,
                last,
                parts,
                sheets,
            } => put_head(entries, last, parts, sheets, out),
            Part::Namespace { ns } => put_one(1, ns, out),
            Part::Table { table, drawn, row } => put_three(2, table, drawn, row, out),
            Part::Region {
                region,
                range,
                status,
                parents,
                place,
            } => {
                put_two(3, region, range, out);
                put_two(status.number(), parents, place, out);
            }
            Part::Server { server, fenced } => put_two(4, server, fenced, out),
            Part::Root {
                pid,
                nonce,
                args,
                cause,
            } => {
                put_two(5, pid, nonce, out);
                put_root_args(args, out);
                cause.put(out);
            }
            Part::Layout { pid } => put_one(6, pid, out),
        }
    }
}
