//! Lines of scripts.
use hm_gen::generate;
use hm_script::print;
use std::test::Fail;

const ALL_KEYS: &str =
    "create 0:0 g0 k01 k02 k03 k04 k05 k06 k07 k08 k09 k10 k11 k12 k13 k14 k15 k16 k17 k18 k19 k20 k21 k22 k23 k24 k25 k26 k27 k28 k29 k30 k31 k32 k33 k34 k35 k36 k37 k38 k39 k40 k41 k42 k43 k44 k45 k46 k47 k48 k49 k50 k51 k52 k53 k54 k55 k56 k57 k58 k59 k60 k61 k62 k63\n";

const SOME_KEYS: &str =
    "create 0:0 g15 k01 k02 k03 k04 k05 k06 k07 k08 k09 k10 k11 k12 k13 k14 k15 k16 k17 k18 k19 k20 k21 k22 k23 k24 k25 k26 k27 k28 k29 k30 k31 k32 k33 k34 k35 k36 k37 k38 k39\n";

#[test]
fn lines_of_scripts(rt: HostRuntime) -> Result<(), Fail> {
    // A seed, how many regions there are, how many lines the script has, and one of them by its place.
    let rows = [
        (7, 1, 12, 0, "server h1,16020,1\n"),
        (7, 1, 12, 3, "server h4,16020,1\n"),
        (7, 1, 12, 4, "create 0:0 g0\n"),
        (7, 4, 12, 4, "create 0:0 g0 k01 k02 k03\n"),
        (7, 8, 13, 6, "move 0:0 g0,7\n"),
        (0, 8, 13, 6, "move 0:0 g0,8\n"),
        (18446744073709551615, 8, 13, 6, "move 0:0 g0,1\n"),
        (7, 17, 14, 5, "settle\n"),
        (7, 17, 14, 6, "move 0:0 g0,16\n"),
        (7, 17, 14, 7, "move 0:0 g0,10\n"),
        (7, 17, 14, 8, "settle\n"),
        (7, 17, 14, 9, "die h1,16020,1\n"),
        (7, 17, 14, 10, "expire h1,16020,1\n"),
        (7, 17, 14, 11, "settle\n"),
        (7, 17, 14, 12, "balance\n"),
        (7, 17, 14, 13, "settle\n"),
        (7, 65, 21, 4, ALL_KEYS),
        (7, 65, 21, 5, "create 0:0 g1\n"),
        (7, 65, 21, 6, "settle\n"),
        (0, 65, 21, 14, "move 0:0 g0,46\n"),
        (7, 1000, 152, 19, SOME_KEYS),
        (7, 1000, 152, 145, "move 0:0 g2,43\n"),
        (7, 16384, 2315, 260, "settle\n"),
        (7, 16384, 2315, 261, "move 0:0 g81,31\n"),
        (
            18446744073709551615,
            16384,
            2315,
            1999,
            "move 0:0 g138,16\n",
        ),
        (7, 16384, 2315, 2308, "move 0:0 g220,57\n"),
    ];
    for (seed, count, lines, place, text) in rows {
        assert!(rt; 1 <= count && count <= 16384);
        let commands = generate(rt.alloc(), seed, count)?;
        assert_eq!(rt; commands.len(), lines);
        assert!(rt; place < commands.len());
        let line = print(rt.alloc(), &commands[place..place + 1])?;
        assert_eq!(rt; line.as_slice(), text.as_bytes());
    }
    Ok(())
}
