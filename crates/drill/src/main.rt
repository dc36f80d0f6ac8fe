// The drill runs the same scripts of calls on a row and on a chain, and prints what they answer.
#![tactic(auto)]

mod scripts;
mod text;

use chain::Chain;
use chain::link::Link;
use row::Row;
use script::ranked::ranked_pairs;
use script::run::run;
use script::step::{Step, order};
use scripts::{MIXED, PROBE, filled};
use shelves::rank::Bid;
use text::{AnswerText, StepText};

// Scripts of up to this many steps are printed step by step.
const PRINTED: usize = 100;

fn main(rt: HostRuntime) -> anyhow::Result<()> {
    for places in [0, 1, 4] {
        drill(&rt, places, &[&MIXED])?;
    }
    let puts = filled(rt.alloc(), 4096)?;
    let takes = vec![in rt.alloc(); Step::Take(0); 4096]?;
    let fill = puts.as_slice();
    let empty = takes.as_slice();
    drill(&rt, 4096, &[fill, &PROBE, empty, fill, &PROBE, empty])
}

// Runs scripts, one after another, on a row and on a chain of bids with so many places.
fn drill(rt: &HostRuntime, places: usize, scripts: &[&[Step]]) -> anyhow::Result<()> {
    println!(rt; "{places} places")?;
    let mut slots = vec![in rt.alloc(); order(0, 0); places]?;
    let mut links = vec![in rt.alloc(); Link {
        order: order(0, 0),
        next: 0
    }; places]?;
    let mut row = Row::new(slots.as_mut_slice());
    let mut chain = Chain::new(links.as_mut_slice());
    for script in scripts {
        compare(rt, &mut row, &mut chain, script)?;
    }
    Ok(())
}

// Runs a script on both, and prints whether they answer alike and what they answer.
fn compare(
    rt: &HostRuntime,
    row: &mut Row<Bid>,
    chain: &mut Chain<Bid>,
    script: &[Step],
) -> anyhow::Result<()> {
    let answers = run::<Bid, Row<Bid>>(rt.alloc(), row, script)?;
    let others = run::<Bid, Chain<Bid>>(rt.alloc(), chain, script)?;
    let steps = script.len();
    let alike = answers.as_slice() == others.as_slice();
    println!(rt; "  {steps} steps, row and chain answer alike: {alike}")?;
    if steps > PRINTED {
        let pairs = ranked_pairs::<Bid>(answers.as_slice());
        println!(rt; "  orders shown right behind one that comes before: {pairs}")?;
        return Ok(());
    }
    for (step, answer) in script.iter().zip(answers.iter()) {
        println!(rt; "    {}: {}", StepText(*step), AnswerText(*answer))?;
    }
    Ok(())
}
