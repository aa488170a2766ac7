// What a module holds of its lines.
ghost use Rattle.std.specs.Prelude.{◌≤◌, length};
ghost use Rattle.line_module.specs.Keeps.{KeepsLines};
ghost use Rattle.line_module.specs.Order.{EachOnce, EachOnce-prop};

use crate::order::Order;
use crate::state::State;
use raw_lines::Region;
use std::alloc::Global;

mod change;
mod look;
mod new;
mod restart;
mod store;

/// Lines whose durable bytes lie in one region and the last ones of the dirty lines in another. A bad line is bare in both.
#[derive(Drop)]
pub struct Cells {
    durable: Region,
    cached: Region,
    states: Vec<State>,
    order: Order,
    alloc: Global,
    ghost few: { length durable ≤ 118016 },
    ghost once: { EachOnce order } by { EachOnce-prop order },
    ghost kept: { KeepsLines durable cached states.items order },
}
