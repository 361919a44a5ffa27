//! Scripts that are refused, and at which fault.
use hm_script::{Bad, Command, Commands, Pair, Program, Run, Why, parse, parse_for};
use std::alloc::Global;
use std::process::Abort;
use std::test::Fail;

// A program that has no command yet, and whose merges are of two regions.
struct Idle;

impl Commands for Idle {
    ghost use Rattle.std.specs.Prelude.{false};
    ghost use Rattle.hm_script.specs.declared.program.Program.TheVariants.{Run};

    ghost reader = { record { program = Run; most_regions = 2; has = λ said. false } };

    fn program() -> Program {
        Program::Run
    }

    fn most_regions() -> u64 {
        2
    }

    fn has(_command: &Command) -> bool {
        false
    }
}

// A program refuses each script with this text.
fn refuses<C: Commands>(
    rt: &impl Abort,
    alloc: Global,
    cases: &[(&[u8], &str)],
) -> Result<(), Fail> {
    for (script, text) in cases {
        match parse_for::<C>(alloc, script) {
            Ok(_) => assert!(rt; false, "it is read"),
            Err(bad) => assert_eq!(rt; bad.to_string(alloc)?.as_str(), *text),
        }
    }
    Ok(())
}

#[test]
fn parse_refuses_these(rt: HostRuntime) -> Result<(), Fail> {
    let cases = [
        // The first word.
        (b"frob".as_slice(), "line 1: Word 0"),
        (b"  frob", "line 1: Word 2"),
        (b"\n#\nsettle\r\n frob x\x07", "line 4: Word 1"),
        (b"Settle", "line 1: Word 0"),
        (b"   ", "line 1: Missing"),
        // A byte that may not stand in a line.
        (b"namespace x a\x07", "line 1: Word 13"),
        (b"na\x07", "line 1: Word 0"),
        (b"settle\x07", "line 1: Word 6"),
        (b"settle\nsettle\r", "line 2: Word 6"),
        (b"settle \xff x\x07", "line 1: Word 7"),
        (b"\x7f", "line 1: Word 0"),
        (b"settle\nworkers\t2", "line 2: Word 7"),
        // Words that are needed, and words too many.
        (b"namespace 1:1", "line 1: Missing"),
        (b"namespace 1:1 a b", "line 1: Extra"),
        (b"namespace x a b", "line 1: Name BadNumber 1"),
        (b"merge 1:1 t,1", "line 1: Missing"),
        (
            b"merge 1:1 t,1 t,2 t,3 t,4 t,5 t,6 t,7 t,8 t,9 t,10 t,11",
            "line 1: Extra",
        ),
        (
            b"merge 1:1 t,1 t,2 t,3 t,4 t,5 t,6 t,7 t,8 t,9 t,x t,11",
            "line 1: Name BadNumber 2",
        ),
        (b"move 1:1 t,1 h1,1,1 x", "line 1: Extra"),
        (b"procs x", "line 1: Extra"),
        (b"procs json x", "line 1: Extra"),
        (b"settle settle", "line 1: Extra"),
        (b"cut 1", "line 1: Missing"),
        (b"refuse storage", "line 1: Missing"),
        // Names.
        (b"create 1:1 -t", "line 1: Name BadByte 0"),
        (b"create 1:1 t m \\ n", "line 1: Name BadByte 0"),
        (b"create 1:1 t: -", "line 1: Name Empty"),
        (b"server ,1,1", "line 1: Name Empty"),
        (b"server h1,1", "line 1: Name BadNumber 4"),
        (b"die h1,65536,1", "line 1: Name BadNumber 3"),
        (b"move 1:1 t,1 h1,1,0", "line 1: Name BadNumber 5"),
        (b"split 1:1 t,0 m", "line 1: Name BadNumber 2"),
        (b"namespace 01:1 a", "line 1: Name BadNumber 0"),
        (
            b"namespace 1:1 abcdefghijklmnopqrstuvwxyzabcdefghijklmnopqrstuvwxyzabcdefghijklm",
            "line 1: Name TooLong 65",
        ),
        // Numbers.
        (b"step x", "line 1: Number"),
        (b"step 01", "line 1: Number"),
        (b"step 18446744073709551616", "line 1: Number"),
        (b"abort -1", "line 1: Number"),
        (b"refuse storage 4294967296", "line 1: Number"),
        (b"workers 17", "line 1: Number"),
        (b"modify 1:1 t +2", "line 1: Number"),
        // The order of commands.
        (b"settle\nworkers 2", "line 2: Order"),
        (b"\n\nsettle\n#\nworkers", "line 5: Order"),
        (b"workers 2\nworkers 17", "line 2: Order"),
        // Words of the later stages.
        (b"roll x", "line 1: Extra"),
        (b"backoff", "line 1: Missing"),
        (b"backoff 8", "line 1: Number"),
        (b"backoff 07", "line 1: Number"),
        (b"tick 0", "line 1: Number"),
        (b"tick 1000001", "line 1: Number"),
        (b"tick", "line 1: Missing"),
        (b"timers 1", "line 1: Extra"),
        (b"group", "line 1: Missing"),
        (b"group g", "line 1: Missing"),
        (b"group g h1", "line 1: Name BadNumber 2"),
        (b"group g h1,1,1 h1", "line 1: Name BadNumber 2"),
        (b"group - h1", "line 1: Name BadByte 0"),
        (b"table-group t", "line 1: Missing"),
        (b"table-group t g x", "line 1: Extra"),
        (b"table-group -t g", "line 1: Name BadByte 0"),
        (b"drain", "line 1: Missing"),
        (b"drain h1", "line 1: Name BadNumber 2"),
        (b"undrain h1,1,1 x", "line 1: Extra"),
        (b"hbck x", "line 1: Extra"),
        // Words of the other program.
        (b"follow", "line 1: Word 0"),
        (b" takeover x", "line 1: Word 1"),
        (b"old settle", "line 1: Word 0"),
        (b"follow\nfrob", "line 1: Word 0"),
        // The first line that is wrong counts.
        (b"settle\nstep\nfrob", "line 2: Missing"),
    ];
    refuses::<Run>(&rt, rt.alloc(), cases.as_slice())
}

#[test]
fn pair_refuses_these(rt: HostRuntime) -> Result<(), Fail> {
    let cases = [
        // Words of the other program.
        (b"workers 2".as_slice(), "line 1: Word 0"),
        (b"settle\nroll", "line 2: Word 0"),
        (b"cut 0 0", "line 1: Word 0"),
        (b"reopen", "line 1: Word 0"),
        (b"backoff 1", "line 1: Word 0"),
        (b"tick 1", "line 1: Word 0"),
        (b"timers", "line 1: Word 0"),
        (b"group g h1,1,1", "line 1: Word 0"),
        (b"table-group t g", "line 1: Word 0"),
        (b"drain h1,1,1", "line 1: Word 0"),
        (b"undrain h1,1,1", "line 1: Word 0"),
        (b"  hbck", "line 1: Word 2"),
        // Words of its own.
        (b"follow x", "line 1: Extra"),
        (b"takeover 2", "line 1: Extra"),
        (b"old", "line 1: Missing"),
        (b" old  ", "line 1: Missing"),
        (b"old frob", "line 1: Word 4"),
        (b"old settle", "line 1: Word 4"),
        (b"old old", "line 1: Word 4"),
        (b"old old step 1", "line 1: Word 4"),
        (b" old  frob", "line 1: Word 6"),
        (b"old server h1,1,1", "line 1: Word 4"),
        (b"old die h1,1,1", "line 1: Word 4"),
        (b"old step", "line 1: Missing"),
        (b"old step x", "line 1: Number"),
        (b"old step 1 x", "line 1: Extra"),
        (b"old namespace 1:1 -", "line 1: Name BadByte 0"),
        (b"old merge 1:1 t,1", "line 1: Missing"),
        (b"old frob \x07", "line 1: Word 9"),
        (b"olds step 1", "line 1: Word 0"),
        (b"old\x07", "line 1: Word 3"),
    ];
    refuses::<Pair>(&rt, rt.alloc(), cases.as_slice())
}

#[test]
fn parse_for_asks_for_commands_after_the_grammar(rt: HostRuntime) -> Result<(), Fail> {
    let cases = [
        // The first command that the program doesn't have.
        (b"settle".as_slice(), "line 1: Word 0"),
        (b"\n#\n  workers 2\n settle", "line 3: Word 2"),
        // A line that breaks the grammar counts more, wherever it stands.
        (b"settle\nfrob", "line 2: Word 0"),
        (b"settle\n\nstep", "line 3: Missing"),
        (b"settle\nworkers 2", "line 2: Order"),
        (b"servers\nsettle\nprocs json x", "line 3: Extra"),
        (b"settle\nmerge 1:1 t,1 t,2 t,3", "line 2: Extra"),
        (b"merge 1:1 t,1 t,2", "line 1: Word 0"),
        // A word of the other program breaks it too.
        (b"settle\nold step 1", "line 2: Word 0"),
    ];
    refuses::<Idle>(&rt, rt.alloc(), cases.as_slice())?;
    assert!(rt; parse_for::<Idle>(rt.alloc(), b"\n# settle\n".as_slice()).is_ok());
    Ok(())
}

#[test]
fn parse_reads_so_many_bytes(rt: HostRuntime) -> Result<(), Fail> {
    let mut script = vec![in rt.alloc(); b'#'; 1_048_576]?;
    assert!(rt; parse(rt.alloc(), script.as_slice()).is_ok());
    script.push(b'#')?;
    let bad = Bad {
        line: 0,
        why: Why::TooLong,
    };
    assert_eq!(rt; bad.to_string(rt.alloc())?.as_str(), "line 0: TooLong");
    match parse(rt.alloc(), script.as_slice()) {
        Ok(_) => assert!(rt; false, "too long"),
        Err(found) => assert_eq!(rt; found, bad),
    }
    Ok(())
}
