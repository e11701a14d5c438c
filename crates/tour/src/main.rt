//! One task at the lost property counter, told from beginning to end.
#![tactic(auto)]

mod day;
mod judged;
mod labelled;
mod place;
mod station;

use anyhow::anyhow;
use labels::{Ladder, Pair, SchemeFault, Topics};

/// Three topics (low) and a ladder of four levels (high). It is a line, so it is written where it is needed and not exported by the
/// window's crate.
pub(crate) fn scheme() -> Result<Pair<Topics, Ladder>, SchemeFault> {
    Ok(Pair::new(Topics::new(3)?, Ladder::new(4)?))
}

fn tell(rt: &HostRuntime) -> anyhow::Result<()> {
    let Ok(scheme) = scheme() else {
        return Err(anyhow!("the scheme cannot be built"));
    };
    labelled::tell(rt, &scheme)?;
    judged::tell(rt, &scheme)?;
    day::tell(rt)?;
    Ok(())
}

fn main(rt: HostRuntime) -> anyhow::Result<()> {
    tell(&rt)
}
