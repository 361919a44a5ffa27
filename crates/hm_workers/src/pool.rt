//! Workers in threads.
ghost use Rattle.std.specs.Prelude.{◌≡◌, All, length};
ghost use Rattle.hm_gate.specs.Ready.{IsReady};
ghost use Rattle.hm_workers.specs.Ends.{IsFree, Knows};
ghost use Rattle.hm_workers.specs.Ran.{EachRan, RanFor};

use crate::serves::Serves;
use crate::working::work;
use hm_gate::{Gate, Seat};
use hm_lend::Hall;
use std::alloc::Global;
use std::sync::Wait;
use std::thread;
use std::thread::Threads;

/// Each pair of a seat and what serves works in a thread of its own, up to sixteen at once. All have ended when it returns.
pub fn work_each<H: Hall + Send, S: Serves + Send, R: Threads + Wait + Sync>(
    rt: &R,
    alloc: Global,
    gate: &Gate<H>,
    pairs: &mut [(Seat<H>, S)],
)
    requires { All (λ p. IsReady gate.now p.0 × IsFree p.0.view × (p.0.view.parts ≡ 1) × Knows H.editions_in p.0.view (S.editions p.1)) pairs.old }
    ensures each { All (λ p. IsReady gate.now p.0 × IsFree p.0.view × (p.0.view.parts ≡ 1) × Knows H.editions_in p.0.view (S.editions p.1)) pairs.new }
    ensures count { length pairs.new ≡ length pairs.old }
    ensures ran { EachRan pairs.old pairs.new S.editions S.runs (λ s. s.view.mine) }
{
    thread::for_each_mut(
        rt,
        pairs,
        16,
        &|_: usize, pair: &mut (Seat<H>, S)|
            requires { IsReady gate.now pair.now.0 × IsFree pair.now.0.view × (pair.now.0.view.parts ≡ 1) × Knows H.editions_in pair.now.0.view (S.editions pair.now.1) }
            ensures { IsReady gate.entry.now pair.exit.now.0 × IsFree pair.exit.now.0.view × (pair.exit.now.0.view.parts ≡ 1) × Knows H.editions_in pair.exit.now.0.view (S.editions pair.exit.now.1) × (S.editions pair.exit.now.1 ≡ S.editions pair.entry.now.1) × RanFor (S.editions pair.entry.now.1) pair.entry.now.0.view.mine pair.exit.now.0.view.mine (S.runs pair.entry.now.1) (S.runs pair.exit.now.1) }
        {
            let _ = work(rt, alloc, gate, &mut pair.0, &mut pair.1);
        },
    );
}
