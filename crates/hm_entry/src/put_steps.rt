ghost use Rattle.std.specs.Prelude.{◌≡◌, ◌-◌, ◌^◌, ◌≤◌, ◌++◌, length, min, IfSome, All};
ghost use Rattle.hm_entry.specs.Fits.{AllFit, AnswerFits, ArgsFit, ChildFits, VerbFits, PlaceFits, OutFits, IsSpelled, ChildIsSpelled, OutIsSpelled};
ghost use Rattle.hm_entry.specs.Sizes.{child_some};
ghost use Rattle.hm_entry.specs.Spelling.{answer as answer_text, args as args_text, child as child_text, verb as verb_text, place as place_text, option as option_text, list as list_text, out as out_text};
ghost use Rattle.hm_wire.specs.Room.{HasRoom, Puts};

use crate::put::{Item, Put};
use crate::put_fields::{
    length_of_one, length_of_three, length_of_two, put_one, put_three, put_two,
};
use hm_data::{Answer, Args, Child, Place, StepOut, Verb};
use hm_wire::put_byte;

impl Put for Answer {
    ghost spell = { answer_text };

    ghost fits = { AnswerFits };

    ghost spelled = { λ _. Unit {0} };

    #[tactic(auto, unfolding(crate::specs::Spelling::answer))]
    fn length(&self) -> u64 {
        2
    }

    #[tactic(auto, unfolding(crate::specs::Spelling::answer))]
    fn put(&self, out: &mut Vec<u8>) {
        match self {
            Answer::More(row) => put_one(0, row, out),
            Answer::Wait(row) => put_one(1, row, out),
            Answer::Await(row) => put_one(2, row, out),
            Answer::Done(told) => put_one(3, &told.number(), out),
            Answer::Fail(cause) => put_one(4, &cause.number(), out),
            Answer::Undone => {
                put_byte(out, 5);
                put_byte(out, 0);
            }
        }
    }
}

// Only a procedure that another one makes has a spelling.
impl Put for Args {
    ghost spell = { args_text };

    ghost fits = { ArgsFit };

    ghost spelled = { IsSpelled };

    #[tactic(auto, unfolding(crate::specs::Spelling::args))]
    fn length(&self) -> u64 {
        match self {
            Args::Root { .. } | Args::Transit { .. } => 0,
            Args::Crash { server } | Args::FenceCall { server } => length_of_one(server),
            Args::AddRegions {
                table,
                first,
                bounds,
            } => length_of_three(table, first, bounds),
            Args::DropRegions { table, ids } => length_of_two(table, ids),
            Args::AssignCall { region, server } | Args::CloseCall { region, server } => {
                length_of_two(region, server)
            }
            Args::LayoutCall { .. } | Args::SweepLayout { .. } => 9,
        }
    }

    #[tactic(auto, unfolding(crate::specs::Spelling::args))]
    fn put(&self, out: &mut Vec<u8>) {
        match self {
            Args::Root { .. } | Args::Transit { .. } => unreachable!(),
            Args::Crash { server } => put_one(11, server, out),
            Args::AddRegions {
                table,
                first,
                bounds,
            } => put_three(20, table, first, bounds, out),
            Args::DropRegions { table, ids } => put_two(21, table, ids, out),
            Args::AssignCall { region, server } => put_two(23, region, server, out),
            Args::CloseCall { region, server } => put_two(24, region, server, out),
            Args::FenceCall { server } => put_one(25, server, out),
            Args::LayoutCall { root } => put_one(26, root, out),
            Args::SweepLayout { root } => put_one(27, root, out),
        }
    }
}

impl Put for Child {
    ghost spell = { child_text };

    ghost fits = { ChildFits };

    ghost spelled = { ChildIsSpelled };

    #[tactic(auto, unfolding(crate::specs::Spelling::child))]
    fn length(&self) -> u64 {
        match self {
            Child::Transits { table, ids, .. } => table
                .length()
                .saturating_add(ids.length())
                .saturating_add(2),
            Child::One(args) => args.length(),
        }
    }

    #[tactic(auto, unfolding(crate::specs::Spelling::child))]
    fn put(&self, out: &mut Vec<u8>) {
        match self {
            Child::Transits { table, ids, goal } => put_three(0, table, ids, &goal.number(), out),
            Child::One(args) => args.put(out),
        }
    }
}

impl Item for Child {
    ghost not_empty = { λ x is. child_some x is };
}

impl Put for Verb {
    ghost spell = { verb_text };

    ghost fits = { VerbFits };

    ghost spelled = { λ _. Unit {0} };

    #[tactic(auto, unfolding(crate::specs::Spelling::verb))]
    fn length(&self) -> u64 {
        match self {
            Verb::AssignRegion(region) | Verb::CloseRegion(region) => length_of_one(region),
            Verb::Fence(server) => length_of_one(server),
            Verb::Layout(_) | Verb::Sweep(_) => 9,
        }
    }

    #[tactic(auto, unfolding(crate::specs::Spelling::verb))]
    fn put(&self, out: &mut Vec<u8>) {
        match self {
            Verb::AssignRegion(region) => put_one(0, region, out),
            Verb::CloseRegion(region) => put_one(1, region, out),
            Verb::Fence(server) => put_one(2, server, out),
            Verb::Layout(root) => put_one(3, root, out),
            Verb::Sweep(root) => put_one(4, root, out),
        }
    }
}

impl Put for Place {
    ghost spell = { place_text };

    ghost fits = { PlaceFits };

    ghost spelled = { λ _. Unit {0} };

    #[tactic(auto, unfolding(crate::specs::Spelling::place))]
    fn length(&self) -> u64 {
        self.server.length().saturating_add(1)
    }

    #[tactic(auto, unfolding(crate::specs::Spelling::place))]
    fn put(&self, out: &mut Vec<u8>) {
        put_byte(out, self.state.number());
        self.server.put(out);
    }
}

// How long the spelling of what a step asks for is, and of what follows it.
fn asks_length(step: &StepOut) -> u64
    ensures { result ≡ min (length (option_text verb_text step.now.call ++ (option_text place_text step.now.place ++ list_text child_text step.now.followers))) (2 ^ 64 - 1) }
{
    step.call
        .length()
        .saturating_add(step.place.length())
        .saturating_add(step.followers.length())
}

// Appends what a step asks for, and what follows it.
fn put_asks(step: &StepOut, out: &mut Vec<u8>)
    requires spelled { All ChildIsSpelled step.now.followers }
    requires short { length (option_text verb_text step.now.call ++ (option_text place_text step.now.place ++ list_text child_text step.now.followers)) ≤ 65536 }
    requires room { HasRoom out.old (length (option_text verb_text step.now.call ++ (option_text place_text step.now.place ++ list_text child_text step.now.followers))) }
    ensures put { Puts out.old (option_text verb_text step.now.call ++ (option_text place_text step.now.place ++ list_text child_text step.now.followers)) out.new }
    ensures fits { IfSome step.now.call VerbFits × IfSome step.now.place PlaceFits × AllFit ChildFits step.now.followers }
{
    step.call.put(out);
    step.place.put(out);
    step.followers.put(out);
}

impl Put for StepOut {
    ghost spell = { out_text };

    ghost fits = { OutFits };

    ghost spelled = { OutIsSpelled };

    #[tactic(auto, unfolding(crate::specs::Spelling::out))]
    fn length(&self) -> u64 {
        self.answer
            .length()
            .saturating_add(self.edits.length())
            .saturating_add(self.children.length())
            .saturating_add(asks_length(self))
    }

    #[tactic(auto, unfolding(crate::specs::Spelling::out))]
    fn put(&self, out: &mut Vec<u8>) {
        self.answer.put(out);
        self.edits.put(out);
        self.children.put(out);
        put_asks(self, out);
    }
}
