//! Each command, read and printed.
use hm_script::{Commands, Pair, Run, parse_for, print};
use std::alloc::Global;
use std::process::Abort;
use std::test::Fail;

// What a program reads of each script is printed as this text.
fn prints_what_it_reads<C: Commands>(
    rt: &impl Abort,
    alloc: Global,
    cases: &[(&[u8], &str)],
) -> Result<(), Fail> {
    for (script, text) in cases {
        match parse_for::<C>(alloc, script) {
            Ok(commands) => {
                let printed = print(alloc, commands.as_slice())?;
                assert_eq!(rt; printed.as_slice(), text.as_bytes());
            }
            Err(bad) => assert!(rt; false, "{bad}"),
        }
    }
    Ok(())
}

#[test]
fn print_gives_what_parse_reads(rt: HostRuntime) -> Result<(), Fail> {
    let cases = [
        // What is printed is read as it stands.
        (b"workers 0".as_slice(), "workers 0\n"),
        (b"workers 16", "workers 16\n"),
        (b"#\n\nworkers 1\r\nsettle\r\n", "workers 1\nsettle\n"),
        (b"namespace 1:1 shop\n", "namespace 1:1 shop\n"),
        (
            b"drop-namespace 0:0 default\n",
            "drop-namespace 0:0 default\n",
        ),
        (b"create 1:2 t\n", "create 1:2 t\n"),
        (
            b"create 1:2 default:t \\x00 \\xff ~",
            "create 1:2 t \\x00 \\xFF ~\n",
        ),
        (b"create 1:2 s:t \\- m\\x6d", "create 1:2 s:t \\- mm\n"),
        (b"delete 1:3 t", "delete 1:3 t\n"),
        (b"enable 1:3 t", "enable 1:3 t\n"),
        (b"disable 1:3 s:t", "disable 1:3 s:t\n"),
        (
            b"modify 18446744073709551615:1 t 18446744073709551615",
            "modify 18446744073709551615:1 t 18446744073709551615\n",
        ),
        (b"split 1:4 t,1 m", "split 1:4 t,1 m\n"),
        (b"merge 1:5 t,1 t,2", "merge 1:5 t,1 t,2\n"),
        (b"move 1:6 t,1", "move 1:6 t,1\n"),
        (b"move 1:6 t,1 h1,16020,1", "move 1:6 t,1 h1,16020,1\n"),
        (b"abort 0", "abort 0\n"),
        (b"server h1,16020,1", "server h1,16020,1\n"),
        (b"die h1,65535,2", "die h1,65535,2\n"),
        (b"expire h-1.x,1,3", "expire h-1.x,1,3\n"),
        (b"refuse h1,1,1 4294967295", "refuse h1,1,1 4294967295\n"),
        (b"refuse storage 0", "refuse storage 0\n"),
        (b"step 10", "step 10\n"),
        (b"  settle  ", "settle\n"),
        (b"lose\nrepeat\nbalance", "lose\nrepeat\nbalance\n"),
        (b"procs\nprocs   json\n", "procs\nprocs json\n"),
        (b"regions\nlocks\nservers", "regions\nlocks\nservers\n"),
        (b"cut 3 0\nreopen\n", "cut 3 0\nreopen\n"),
        // Words of the later stages.
        (b"roll\ntimers\nhbck", "roll\ntimers\nhbck\n"),
        (b"merge 1:5 t,1 t,2 t,3", "merge 1:5 t,1 t,2 t,3\n"),
        (
            b"merge 1:5 t,1 t,2 t,3 t,4 t,5 t,6 t,7 t,8 t,9 t,10",
            "merge 1:5 t,1 t,2 t,3 t,4 t,5 t,6 t,7 t,8 t,9 t,10\n",
        ),
        (b"backoff 0\nbackoff 7", "backoff 0\nbackoff 7\n"),
        (b"tick 1\ntick 1000000", "tick 1\ntick 1000000\n"),
        (b"group g h2,16020,1", "group g h2,16020,1\n"),
        (
            b"group g h2,16020,1  h3,16020,1",
            "group g h2,16020,1 h3,16020,1\n",
        ),
        (b"table-group default:t g", "table-group t g\n"),
        (
            b"drain h2,16020,1\nundrain h2,16020,1",
            "drain h2,16020,1\nundrain h2,16020,1\n",
        ),
        (b"", ""),
        (b"\n\r\n#\x07\xff\n#", ""),
    ];
    prints_what_it_reads::<Run>(&rt, rt.alloc(), cases.as_slice())
}

#[test]
fn print_gives_what_pair_reads(rt: HostRuntime) -> Result<(), Fail> {
    let cases = [
        (
            b"namespace 1:1 shop\ntakeover\nold namespace 1:2 dead\nnamespace 1:2 live\nsettle\nprocs".as_slice(),
            "namespace 1:1 shop\ntakeover\nold namespace 1:2 dead\nnamespace 1:2 live\nsettle\nprocs\n",
        ),
        (
            b"old namespace 1:1 x\ntakeover\ntakeover\n",
            "old namespace 1:1 x\ntakeover\ntakeover\n",
        ),
        (b" follow \n\n  old   step  7\r\n", "follow\nold step 7\n"),
        (b"old drop-namespace 1:1 x", "old drop-namespace 1:1 x\n"),
        (b"old create 1:1 t a b", "old create 1:1 t a b\n"),
        (
            b"old delete 1:1 t\nold enable 1:1 t\nold disable 1:1 t",
            "old delete 1:1 t\nold enable 1:1 t\nold disable 1:1 t\n",
        ),
        (b"old modify 1:1 t 2", "old modify 1:1 t 2\n"),
        (b"old split 1:1 t,1 m", "old split 1:1 t,1 m\n"),
        (b"old merge 1:1 t,1 t,2 t,3", "old merge 1:1 t,1 t,2 t,3\n"),
        (
            b"old move 1:1 t,1\nold move 1:1 t,1 h1,1,1",
            "old move 1:1 t,1\nold move 1:1 t,1 h1,1,1\n",
        ),
        (
            b"old abort 3\nold expire h1,1,1",
            "old abort 3\nold expire h1,1,1\n",
        ),
        (
            b"server h1,1,1\nbalance\nlocks\nlose\nrepeat",
            "server h1,1,1\nbalance\nlocks\nlose\nrepeat\n",
        ),
    ];
    prints_what_it_reads::<Pair>(&rt, rt.alloc(), cases.as_slice())
}
