//! Runs of lspcheck over sessions that are generated while they are read: what `bench/run` times.
//!
//! The words are the name of a workload, about how many megabytes its logs have, and a seed. For
//! each session there is a line: how the run ended, and a digest of all that it wrote.
#![tactic(auto)]

mod answers;
mod digest;
mod document;
mod log;
mod plan;
mod random;
mod session;
mod words;

use crate::digest::Digest;
use crate::plan::{Plan, plans_of};
use crate::random::Random;
use crate::session::Session;
use lsp_command::{
    BufferedInput, BufferedOutput, Pace, Request, Supply, request_of, run_through, status_of_task,
};
use std::alloc::{AllocError, Global};
use std::env;
use std::io::Read;
use std::rt::Env;
use std::test::Fail;

/// How many bytes are a megabyte.
const MEGABYTE: u64 = 1_000_000;

/// The workloads that `all` runs, in order.
static WORKLOADS: [&str; 6] = ["recorded", "typing", "texts", "answers", "many", "awkward"];

/// How a run ended, and what it wrote.
#[derive(Clone, Copy)]
struct Ended {
    status: u8,
    digest: Digest,
}

/// The words of a command line.
fn words_of(alloc: Global, words: &[&str]) -> Result<Vec<String>, AllocError> {
    let mut found = Vec::new(alloc);
    for word in words {
        found.push(String::from_str(alloc, word)?)?;
    }
    Ok(found)
}

/// The status of a run over the session, whose output is taken into the digest.
fn status_into<R: Read + Drop>(
    alloc: Global,
    request: &Request<'_>,
    session: R,
    digest: &mut Digest,
) -> Result<u8, AllocError> {
    let supply = Supply::new();
    let mut input = BufferedInput::new(alloc, session, &request.task, &supply)?;
    let pace = Pace::of(&request.task, &supply);
    let mut output = BufferedOutput::new(alloc, digest, pace)?;
    let limits = request.limits();
    let answer = run_through(alloc, request.task, &mut input, &mut output, limits);
    Ok(status_of_task(&answer))
}

/// Judges a session as the program does.
fn judged(alloc: Global, plan: Plan, random: Random, bytes: u64) -> Result<Ended, Fail> {
    let words = words_of(alloc, plan.words)?;
    let Ok(request) = request_of(alloc, words.as_slice()) else {
        return Err(Fail::from("the words are wrong"));
    };
    Ok(run_of(alloc, &request, plan, random, bytes)?)
}

/// How a run ends that does what was requested.
fn run_of(
    alloc: Global,
    request: &Request<'_>,
    plan: Plan,
    random: Random,
    bytes: u64,
) -> Result<Ended, AllocError> {
    let session = Session::new(alloc, plan, random, bytes)?;
    let mut digest = Digest::new();
    let status = status_into(alloc, request, session, &mut digest)?;
    Ok(Ended { status, digest })
}

/// Runs a workload of about this many megabytes, and prints a line for each of its sessions.
fn run(rt: &HostRuntime, name: &str, megabytes: u64, seed: u32) -> Result<(), Fail> {
    for plan in plans_of(name) {
        let bytes = megabytes
            .saturating_mul(MEGABYTE)
            .saturating_mul(plan.share)
            / 100;
        let ended = judged(rt.alloc(), *plan, Random::new(seed), bytes)?;
        let status = ended.status;
        let count = ended.digest.count;
        let sum = ended.digest.sum;
        println!(rt; "{name}: status {status}, {count} bytes, {sum:016x}")?;
    }
    Ok(())
}

fn main(rt: HostRuntime) -> Result<(), Fail> {
    let words: Vec<String> = env::args(&rt)?.collect(rt.alloc())?;
    let [_, name, megabytes, seed] = words.as_slice() else {
        return Err(Fail::from("usage: lsp_workloads WORKLOAD|all MEGABYTES SEED"));
    };
    let megabytes = megabytes
        .parse::<u64>()
        .ok()
        .ok_or("MEGABYTES is no number")?;
    let seed = seed.parse::<u32>().ok().ok_or("SEED is no number")?;
    if name.as_str() != "all" {
        return run(&rt, name.as_str(), megabytes, seed);
    }
    for workload in WORKLOADS {
        run(&rt, workload, megabytes, seed)?;
    }
    Ok(())
}
