// One job on one store, for counting instructions: `store_costs packed walk 512 0` lays a store out, adds 512 rows and walks
// over them. The jobs are lay, add, walk, and sweep: a pass that removes each row whose key has no bit of the last number, so
// all for 0, every other one for 1, and none for 4294967295.
#![tactic(auto)]

ghost use Rattle.store_costs.specs.Jobs.{noted, masked};

use anyhow::bail;
use chained::{Cell, Chained};
use packed::Packed;
use std::env;
use stores::{Edit, Fate, Plan, Row, Store, Visit};

const LIMIT: usize = 2048;

const USAGE: &str = "usage: store_costs packed|chained lay|add|walk|sweep ROWS MASK";

// Every word but `chained` names the packed store.
#[derive(Clone, Copy, PartialEq, Eq, Debug)]
enum Kind {
    Packed,
    Chained,
}

impl From<&str> for Kind {
    fn from(word: &str) -> Kind {
        match word {
            "chained" => Kind::Chained,
            _ => Kind::Packed,
        }
    }
}

// Every word but the three others names adding.
#[derive(Clone, Copy, PartialEq, Eq, Debug)]
enum Job {
    Lay,
    Add,
    Walk,
    Sweep,
}

impl From<&str> for Job {
    fn from(word: &str) -> Job {
        match word {
            "lay" => Job::Lay,
            "walk" => Job::Walk,
            "sweep" => Job::Sweep,
            _ => Job::Add,
        }
    }
}

// A number worked out from all keys in their order.
#[derive(Default, Drop)]
pub struct Digest {
    digest: u64,
}

impl Visit for Digest {
    ghost step = { noted };

    fn visit(&mut self, row: Row) {
        self.digest = self.digest.wrapping_mul(31).wrapping_add(row.key as u64);
    }
}

// Removes each row whose key has no bit of the mask.
#[derive(Drop)]
pub struct Masked {
    mask: u32,
}

impl Edit for Masked {
    ghost decides = { masked };

    fn decide(&self, row: Row) -> Fate {
        if row.key & self.mask == 0 {
            Fate::Remove
        } else {
            Fate::Keep
        }
    }
}

fn fill<S: Store>(store: &mut S, rows: usize) {
    for _ in 0..rows {
        let _ = store.add(0, 4, -250);
    }
}

// Answers a number that depends on all that was done, so that none of it can be left out.
fn work<S: Store>(store: &mut S, job: Job, rows: usize, mask: u32) -> u64 {
    if job != Job::Lay {
        fill(store, rows);
    }
    match job {
        Job::Lay | Job::Add => store.row_count(0).unwrap_or(0) as u64,
        Job::Walk => {
            let mut digest = Digest::default();
            store.walk(0, &mut digest);
            digest.digest
        }
        Job::Sweep => store.sweep(0, &Masked { mask }) as u64,
    }
}

fn run(rt: &HostRuntime) -> anyhow::Result<()> {
    let mut args = env::args(rt)?.skip(1);
    let (Some(kind), Some(job), Some(rows), Some(mask)) = (
        args.next(),
        args.next(),
        args.next(),
        args.next(),
    ) else {
        bail!("{USAGE}");
    };
    let kind = Kind::from(kind.as_str());
    let job = Job::from(job.as_str());
    let rows = rows.parse()?;
    let mask = mask.parse()?;
    let plan = Plan::of(&[LIMIT])?;
    let answer = match kind {
        Kind::Packed => {
            let mut held = [Row::default(); LIMIT];
            work(&mut Packed::new(plan, &mut held), job, rows, mask)
        }
        Kind::Chained => {
            let mut cells = [Cell::default(); LIMIT];
            work(&mut Chained::new(plan, &mut cells), job, rows, mask)
        }
    };
    println!(rt; "{answer}")?;
    Ok(())
}

fn main(rt: HostRuntime) -> anyhow::Result<()> {
    run(&rt)
}
