// The box at the window.
ghost use Rattle.std.specs.Prelude.{◌≡◌};

use labels::{Ladder, Pair, Topics};
use monitor::Monitor;

// A box whose labels pair three topics with a ladder of four.
#[derive(Drop)]
pub(crate) struct Window {
    pub(crate) monitor: Monitor<Pair<Topics, Ladder>>,
    ghost topics: { monitor.scheme.low.topics ≡ 3 },
    ghost levels: { monitor.scheme.high.levels ≡ 4 },
}
